//! The tests of caps, extension blocks and frames that no row of a text shows, of catalogues, and
//! of the record of requests.
#![tactic(auto)]

#[cfg(test)]
mod cap_text_tests;
#[cfg(test)]
mod catalogue_tests;
#[cfg(test)]
mod faulty_io_tests;
#[cfg(test)]
mod frames_tests;
#[cfg(test)]
mod kept_tests;
#[cfg(test)]
mod ledger_tests;
#[cfg(test)]
mod requests_tests;
#[cfg(test)]
mod ueb_tests;
