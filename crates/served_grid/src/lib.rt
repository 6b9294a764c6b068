//! Servers of this process and servers elsewhere, side by side, and the clock: what an operation
//! has before it where it is carried on by `local_grid`.
#![tactic(auto)]

mod laws;
mod network;
mod ready;
mod remote;
mod served;
mod sockets;

pub use laws::know_alone;
pub use network::Network;
pub use remote::RemoteServer;
pub use served::ServedGrid;
pub use sockets::Sockets;
