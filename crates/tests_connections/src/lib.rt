//! The tests of connections and their greetings: what no contract says of them, and the system's
//! sockets below.
#![tactic(auto)]

#[cfg(test)]
mod address_tests;
#[cfg(test)]
mod connection_tests;
#[cfg(test)]
mod fake;
#[cfg(test)]
mod greeting_tests;
#[cfg(test)]
mod messages;
#[cfg(test)]
mod socket_tests;
