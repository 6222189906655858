//! Values, assigns, forms, URLs and the lines of scripts, against what they must come to. There is nothing here but tests.
#![tactic(auto)]

#[cfg(test)]
mod forms;
#[cfg(test)]
mod routes;
#[cfg(test)]
mod scripts;
#[cfg(test)]
mod tracking;
#[cfg(test)]
mod values;
#[cfg(test)]
mod views;
