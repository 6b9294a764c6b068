//! The tests of the program's commands that no row of `grid_rows` can have: a call on a file that
//! fails in mid-stream, a writer that fails, memory that is refused, words that are none, and what
//! a crash leaves of a grid; and those of a grid's folders, of what a `status` tells of them, of
//! what is read of a file or of standard input, and of the file that a `get` writes.
#![tactic(auto)]

#[cfg(test)]
mod crashed_folders;
#[cfg(test)]
mod crashes_tests;
#[cfg(test)]
mod failing_files;
#[cfg(test)]
mod failing_files_tests;
#[cfg(test)]
mod failing_repairs_tests;
#[cfg(test)]
mod failing_writers_tests;
#[cfg(test)]
mod folders_tests;
#[cfg(test)]
mod input_tests;
#[cfg(test)]
mod marks_tests;
#[cfg(test)]
mod output_tests;
#[cfg(test)]
mod refused_memory_tests;
#[cfg(test)]
mod runs;
#[cfg(test)]
mod status_tests;
#[cfg(test)]
mod stopping_files;
