//! The tests of the loop over servers elsewhere: what no contract says of it, and sockets of the
//! system below it.
#![tactic(auto)]

#[cfg(test)]
mod asking;
#[cfg(test)]
mod fake;
#[cfg(test)]
mod file_tests;
#[cfg(test)]
mod files;
#[cfg(test)]
mod grids;
#[cfg(test)]
mod loop_tests;
#[cfg(test)]
mod server;
#[cfg(test)]
mod socket_tests;
#[cfg(test)]
mod sockets;
