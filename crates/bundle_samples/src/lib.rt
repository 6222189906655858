//! Bundles and templates as their files spell them, and the views of scripts. There is nothing here but tests.
#![tactic(auto)]

#[cfg(test)]
mod bundles;
#[cfg(test)]
mod script_views;
#[cfg(test)]
mod templates;
