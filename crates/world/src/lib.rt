//! The world: every interleaving of every node's steps, with any nodes lying.
//!
//! A world is honest nodes, each with a server and with operations of its own, and liars, of which
//! nothing is assumed. An event is one step of one of them. Whatever events come in which order
//! (`specs/Headline`): an upload that answers Happy names distinct servers with distinct shares,
//! each acknowledged by a message with the share's digest. And where no two hash inputs of the
//! world clash, every honest one of these servers keeps exactly its share ever after, downloads of
//! one cap agree, and they agree with the file of each upload that answered Happy with that cap.
//!
//! A repair begins by what a check of the same node found. Of each that answers Happy the same
//! holds (`specs/Repairs`), for the shares that it made; and those are the file's own where the
//! upload of a file was started with its cap, and no two hash inputs clash.
#![tactic(auto)]

pub mod event;
pub mod laws;
pub mod liar;
mod nodes;
mod parts;
mod repairs;
mod scene;
mod taking;
mod world;

pub use parts::{is_request, read_body};
pub use world::World;
