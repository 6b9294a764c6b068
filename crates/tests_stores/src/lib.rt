//! The tests of stores and of scrub: values from outside, calls on their happy paths, files that
//! other programs change, calls of the host that fail, and folders that hold what they should not.
#![tactic(auto)]

#[cfg(test)]
mod clearing_tests;
#[cfg(test)]
mod kept_open_tests;
#[cfg(test)]
mod scrub_bytes_tests;
#[cfg(test)]
mod scrub_folder_tests;
#[cfg(test)]
mod scrub_folders;
#[cfg(test)]
mod share_store_tests;
#[cfg(test)]
mod synced_tests;
#[cfg(test)]
mod two_stores_tests;
