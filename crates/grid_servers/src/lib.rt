//! The servers of a grid that stands in a folder, and the secret that it may keep.
//!
//! Each server has a folder of its own, and is asked in memory or over sockets of this machine; or
//! it is served elsewhere, and a socket or a file with its address stands in place of its folder.
//! In a grid that knows its servers a server's folder without the mark of that server is none.
#![tactic(auto)]

mod elsewhere;
mod links;
mod locking;
mod opening;
mod secrets;
mod servers;
mod sites;

pub use grid_marks::is_served_elsewhere;
pub use locking::lock_folders;
pub use opening::{FIRST_SESSION, FolderGrid, is_silent, open_servers, pieces_at_once};
pub use secrets::{draw_secret, grid_secret, keep_secret, read_secret_file, secret_path};
pub use servers::{
    asked_servers, folder_servers, is_new_grid, servers_without, some_servers, standing_servers,
};
pub use share_folders::folder::{Durability, Purpose};
pub use sites::{Site, address_of, find_site, is_address, refuse_no_address};
