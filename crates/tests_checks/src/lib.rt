//! The tests of shares, in both layouts, of what is checked of each, and of checks of the shares at
//! servers: what no contract says, values from outside, and calls on their happy paths.
#![tactic(auto)]

#[cfg(test)]
mod ahead_tests;
mod checker_tests;
#[cfg(test)]
mod judging_tests;
#[cfg(test)]
mod second_layout_tests;
#[cfg(test)]
mod share_layout_tests;
#[cfg(test)]
mod verify_tests;
