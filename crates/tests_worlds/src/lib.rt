//! The tests of the world: whole runs, with liars of the tests' own.
#![tactic(auto)]

#[cfg(test)]
mod agreement_tests;
#[cfg(test)]
mod changing_tests;
#[cfg(test)]
mod course;
#[cfg(test)]
mod liars;
#[cfg(test)]
mod lies_tests;
#[cfg(test)]
mod steps;
#[cfg(test)]
mod world_runs_tests;
