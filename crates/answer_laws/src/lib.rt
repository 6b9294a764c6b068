//! Laws on answers: what honest servers tell, what downloads and checks ask of all of them, and
//! that who answers with a share's own bytes is never refused, blamed or left unfound.
#![tactic(auto)]

mod ask_laws;
mod check_laws;
mod download_laws;
mod enough_laws;
mod server_laws;

pub use ask_laws::{checks_ask_all, downloads_ask_all};
pub use check_laws::{own_answers_are_good, own_reads_are_good};
pub use download_laws::{
    blocks_are_blamed_fairly, downloads_blame_fairly, encoded_shares_serve, own_beginnings_go_on,
    own_blocks_are_right, own_bytes_are_taken, own_or_other, own_parts_have_lengths,
    own_pieces_go_on, own_pieces_join, parts_are_blamed_fairly, pieces_have_siblings,
    share_hashes_have_siblings,
};
pub use enough_laws::{enough_are_found, servers_tell_all, told_shares_are_good};
pub use server_laws::{asks_list_all, reads_bring_closed, told_is_told_again};
