//! The tests of whole files and of what proves parts of them: what no contract says, values from
//! outside, and calls on their happy paths.
#![tactic(auto)]

#[cfg(test)]
mod evidence_tests;
#[cfg(test)]
mod file_encoding_tests;
#[cfg(test)]
mod reading_tests;
#[cfg(test)]
mod repair_tests;
