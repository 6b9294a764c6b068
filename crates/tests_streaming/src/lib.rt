//! The tests of sources and of files that are read from them for their uploads: odd readers, files
//! that change while they are read, whole encodings, the pieces of shares that are made again or
//! anew, files that are decoded from their shares, and uploads over sources.
#![tactic(auto)]

#[cfg(test)]
mod files_tests;
#[cfg(test)]
mod piece_tests;
#[cfg(test)]
mod prepare_tests;
#[cfg(test)]
mod readers_tests;
#[cfg(test)]
mod remade_tests;
#[cfg(test)]
mod share_source_tests;
#[cfg(test)]
mod texts_tests;
#[cfg(test)]
mod upload_tests;
