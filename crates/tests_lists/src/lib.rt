//! The tests of commands over many files, and of what they take from their grid and environment;
//! and of what stands under the names of servers.
#![tactic(auto)]

#[cfg(test)]
mod checks_of_many_tests;
#[cfg(test)]
mod gets_tests;
#[cfg(test)]
mod list_runs;
#[cfg(test)]
mod lists_tests;
#[cfg(test)]
mod open_grids_tests;
#[cfg(test)]
mod sites_tests;
#[cfg(test)]
mod variables_tests;
#[cfg(test)]
mod ways_tests;
