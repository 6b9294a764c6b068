//! The command that serves a folder: one server of a grid, over its folder, for any number of
//! clients.
#![tactic(auto)]

mod counted;
mod fault;
mod folder;
mod listening;
mod marking;
mod served;
mod telling;

pub use counted::CountedStore;
pub use fault::ServeFault;
pub use folder::Serve;
pub use grid_serving::News;
pub use served::{ServedFolder, serve};
pub use share_folders::folder::Durability;
pub use telling::news_line;
pub use user_files::Locks;
