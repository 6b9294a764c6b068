//! The tests of a store over a folder in memory, and of what a crash leaves of shares that are put
//! and of files that are written.
#![tactic(auto)]

#[cfg(test)]
mod crash_disk;
#[cfg(test)]
mod crashes_tests;
#[cfg(test)]
mod keeping_tests;
#[cfg(test)]
mod written_tests;
