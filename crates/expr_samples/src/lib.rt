//! Texts of expressions and patterns, and what they come to by the reader and the evaluator together. There is nothing here
//! but tests.
#![tactic(auto)]

#[cfg(test)]
mod evaluation;
#[cfg(test)]
mod generators;
#[cfg(test)]
mod patterns;
#[cfg(test)]
mod reading;
#[cfg(test)]
mod texts;
#[cfg(test)]
mod tokens;
