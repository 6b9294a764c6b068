//! The tests of the server and of the loop: what no contract says, and calls on their happy paths.
#![tactic(auto)]

#[cfg(test)]
mod given_up_tests;
#[cfg(test)]
mod local_grid_tests;
#[cfg(test)]
mod server_core_tests;
