//! The tests of placing and of uploads: what no contract says, values from outside, and calls on
//! their happy paths.
#![tactic(auto)]

#[cfg(test)]
mod carried_tests;
#[cfg(test)]
mod courses;
#[cfg(test)]
mod kept_tests;
#[cfg(test)]
mod placement_tests;
#[cfg(test)]
mod upload_core_tests;
#[cfg(test)]
mod upload_rounds_tests;
#[cfg(test)]
mod windows_tests;
