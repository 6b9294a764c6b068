//! The tests of downloads: what no contract says, values from outside, and calls on their happy
//! paths.
#![tactic(auto)]

#[cfg(test)]
mod cases;
#[cfg(test)]
mod course;
#[cfg(test)]
mod download_core_tests;
#[cfg(test)]
mod grid;
#[cfg(test)]
mod late_servers_tests;
#[cfg(test)]
mod lying_servers_tests;
#[cfg(test)]
mod rows_tests;
#[cfg(test)]
mod shapes;
#[cfg(test)]
mod taken;
