//! The folders of a grid, and the marks by which it knows its servers: one in the grid's folder,
//! and one in the folder of each of its servers.
//!
//! A mark is one line of text: the identity of the grid, of 16 bytes in 26 base32 letters, and how
//! many servers the grid has, or the number of the server. In a grid that has one, a server's
//! folder without the mark of that server is none.
#![tactic(auto)]

mod addresses;
mod adopting;
mod folders;
mod growing;
mod init;
mod mark;
mod marking;
mod marks;

pub use addresses::AddressFile;
pub use adopting::adopt_grid;
pub use folders::{
    can_be_grid, folder_fault, is_elsewhere, is_grid, is_served_elsewhere, make_grid, server_folder,
};
pub use growing::{add_servers, replace_server};
pub use init::{can_be_marked, mark_grid};
pub use mark::{Identity, Kind, MAX_SERVERS, Mark, identity_of};
pub use marking::publish_mark;
pub use marks::{
    folder_mark, grid_mark, grid_servers_count, known_grid, mark_path, try_known, try_mark,
};
