//! Whole files of Tahoe-LAFS: a file becomes a cap and N shares, of which any k and the cap give it
//! back.
#![tactic(auto)]

mod blocks;
mod decoded;
mod decoding;
mod digests;
mod draft;
mod encoding;
mod error;
mod laws;
mod params;
mod reading;
mod repair;
mod selection;
mod share;
mod shares;

pub use decoded::{DecodedFile, decode_shares};
pub use encoding::{Encoded, encode_all};
pub use error::EncodeError;
pub use laws::{
    accepted_shares_pass, ciphertext_shares_are_bound, ciphertext_shares_pass, encoding_has_parts,
    enough_pass, few_lack, file_has_parts, file_shares_are_bound, file_shares_pass,
    files_are_of_their_caps, good_shares_give_own, own_evidence_is_within, own_shares_are_within,
    own_shares_give_the_file, own_trees_are_within, regenerated_pass, shares_have_one_length,
};
pub use params::{MAX_CHOSEN_SEGMENT_SIZE, MAX_SECRET_SIZE, Params};
pub use reading::{ReadError, read_ciphertext, read_from};
pub use repair::{RegenerateError, regenerate, regenerate_all};
pub use share::{Share, slices_of};
pub use share_verify::{ShareFault, verify_share};
