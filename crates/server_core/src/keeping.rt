//! A server over a store that keeps: what it does to what the store holds.

ghost use Rattle.std.specs.Prelude.{◌≡◌, []};
ghost use Rattle.server_core.specs.ServerState.{Serves, Ticks, RestartsTo, LetsGoOfEnded};
ghost use Rattle.server_core.specs.ServerState.{without_client};
ghost use Rattle.server_core.specs.Sound.{over, ClosedStay, HaveDigests, IsSound, IsKept};
ghost use Rattle.server_core.specs.Sound.{LeavesOthers, LeavesWritten, StaysSound};
ghost use Rattle.share_store.specs.Calls.{shelf_calls};
ghost use Rattle.share_store.specs.Shelf.{Restarts};

use crate::error::ServerFault;
use crate::server::Server;
use share_store::store::Keeping;
use std::alloc::Global;
use wire::message::{Message, NodeId};

/// A server with no bucket open, as `Server::start`. It is sound where the shares that the store
/// has closed have the digests of their bytes.
pub fn start<S: Keeping>(alloc: Global, store: S, capacity: u64, readonly: bool) -> Server<S>
    ensures started { result ≡ record {
      store = store;
      buckets = [];
      clock = 0;
      capacity = capacity;
      readonly = readonly;
    } }
    ensures sound { HaveDigests (S.shelf store).closed → IsSound (over S.shelf result) }
{
    store.know_order();
    Server::start(alloc, store, capacity, readonly)
}

/// Answers one message, as `Server::on_message`.
pub fn serve<S: Keeping>(
    server: &mut Server<S>,
    from: NodeId,
    message: &Message,
    now: u64,
) -> Result<Option<Message>, ServerFault>
    ensures serves { Serves shelf_calls (over S.shelf server.old) from message.now now result
        (over S.shelf server.new) }

    // Closed shares never change, and no client writes another's bucket.
    ensures leaves { LeavesOthers (over S.shelf server.old) from message.now
        (over S.shelf server.new) }
    ensures keeps { IsSound (over S.shelf server.old)
        → IsKept (over S.shelf server.old) from message.now result (over S.shelf server.new) }
{
    server.on_message(from, message, now)
}

/// The time, as `Server::tick`.
pub fn tick<S: Keeping>(server: &mut Server<S>, now: u64)
    ensures ticks { Ticks (over S.shelf server.old) now (over S.shelf server.new) }
    ensures stays { ClosedStay (S.shelf server.old.store) (S.shelf server.new.store) }
    ensures keeps { IsSound (over S.shelf server.old)
        → StaysSound (over S.shelf server.old) (over S.shelf server.new) }
{
    server.tick(now);
}

/// A client is gone, as `Server::forget`.
pub fn forget<S: Keeping>(server: &mut Server<S>, client: NodeId)
    ensures forgets { over S.shelf server.new ≡ without_client client (over S.shelf server.old) }
    ensures keeps { IsSound (over S.shelf server.old)
        → StaysSound (over S.shelf server.old) (over S.shelf server.new) }
{
    server.forget(client);
}

/// The store lets go of shares, as `Server::let_go`.
pub fn let_go<S: Keeping>(server: &mut Server<S>)
    ensures lets_go { LetsGoOfEnded shelf_calls (over S.shelf server.old)
        (over S.shelf server.new) }
    ensures leaves { LeavesWritten (over S.shelf server.old) (over S.shelf server.new) }
    ensures keeps { IsSound (over S.shelf server.old)
        → StaysSound (over S.shelf server.old) (over S.shelf server.new) }
{
    server.let_go();
}

/// A restart, as `Server::restart`.
pub fn restart<S: Keeping>(server: &mut Server<S>)
    ensures restarts { RestartsTo Restarts (over S.shelf server.old) (over S.shelf server.new) }
    ensures stays { ClosedStay (S.shelf server.old.store) (S.shelf server.new.store) }
    ensures keeps { IsSound (over S.shelf server.old)
        → StaysSound (over S.shelf server.old) (over S.shelf server.new) }
{
    server.restart();
}
