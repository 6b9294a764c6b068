//! The tests of the loop of a server: clients over the system's sockets, all in this process, and
//! clients that are still.
#![tactic(auto)]

#[cfg(test)]
mod crowd_tests;
#[cfg(test)]
mod folder_tests;
#[cfg(test)]
mod guest;
#[cfg(test)]
mod hostile_tests;
#[cfg(test)]
mod line;
#[cfg(test)]
mod line_tests;
#[cfg(test)]
mod scene;
#[cfg(test)]
mod serving_tests;
#[cfg(test)]
mod still_tests;
#[cfg(test)]
mod visits;
