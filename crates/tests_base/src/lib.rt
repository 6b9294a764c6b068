//! The tests of hashes, cipher, field, code and trees: what no contract says, values from outside,
//! and calls on their happy paths.
#![tactic(auto)]

#[cfg(test)]
mod aes_ctr_tests;
#[cfg(test)]
mod field_tests;
#[cfg(test)]
mod merkle_tests;
#[cfg(test)]
mod sha256_tests;
#[cfg(test)]
mod sha2_lanes_tests;
#[cfg(test)]
mod streams_tests;
#[cfg(test)]
mod tagged_hash_tests;
#[cfg(test)]
mod zfec_code_tests;
