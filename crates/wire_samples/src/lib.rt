//! Diffs, messages and frames against their texts, and what a client makes of them. There is nothing here but tests.
#![tactic(auto)]

#[cfg(test)]
mod client;
#[cfg(test)]
mod diffs;
#[cfg(test)]
mod frames;
#[cfg(test)]
mod messages;
