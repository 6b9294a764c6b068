//! What holds of a server and its clients. The law is a contract; its call does nothing.

ghost use Rattle.grid_serving.specs.Owners.{StayTheirs};

use connections::Wire;
use share_store::store::Store;

/// Each open bucket is that of a client that is there, so that nobody goes on with a share which
/// another one began, who had the same place: it is so at the beginning, where there is no bucket,
/// and stays so whatever clients do, as time goes on, as clients come, and as they go.
pub fn buckets_are_of_clients<W: Wire, S: Store>()
    ensures { StayTheirs W.calls S.calls }
{}
