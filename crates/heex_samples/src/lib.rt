//! Texts of templates, and what they are read as. There is nothing here but tests.
#![tactic(auto)]

#[cfg(test)]
mod blocks;
#[cfg(test)]
mod deep;
#[cfg(test)]
mod pieces;
#[cfg(test)]
mod printed;
#[cfg(test)]
mod tags;
#[cfg(test)]
mod template;
#[cfg(test)]
mod tokens;
