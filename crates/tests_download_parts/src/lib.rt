//! The tests of the parts that a download has of shares: how one is begun to be read, which is read
//! next, plans, what supplies are asked for, hash trees, and segments. They look at what no
//! contract says, and at values from outside.
#![tactic(auto)]

#[cfg(test)]
mod choices_tests;
#[cfg(test)]
mod decoding_tests;
#[cfg(test)]
mod handout_tests;
#[cfg(test)]
mod opening_tests;
#[cfg(test)]
mod outside_tests;
#[cfg(test)]
mod plan_tests;
#[cfg(test)]
mod row_tests;
#[cfg(test)]
mod share_tests;
#[cfg(test)]
mod supply_tests;
#[cfg(test)]
mod taking;
