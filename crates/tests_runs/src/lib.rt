//! The tests of commands by a host whose sockets and clock are the tests' own: over sockets that do
//! not do as they should, at another time, and with the line that tells how far a command is; and
//! of files that are compared with their caps.
#![tactic(auto)]

#[cfg(test)]
mod host;
#[cfg(test)]
mod host_runs;
#[cfg(test)]
mod odd_sockets_tests;
#[cfg(test)]
mod progress_tests;
#[cfg(test)]
mod since_tests;
#[cfg(test)]
mod verify_tests;
