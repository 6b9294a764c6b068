//! The servers of a grid as they are opened: each over its own folder, or elsewhere.

ghost use Rattle.std.specs.Prelude.{◌≡◌, ◌<◌, ℕ, [], None, get_or, length, IfOk, IfSome, OnOk};
ghost use Rattle.std.specs.Prelude.{IsTrue, Some, option_copied};
ghost use Rattle.share_folders.specs.Folder.{durability_of};
ghost use Rattle.share_folders.specs.Names.{in_folder};
ghost use Rattle.grid_faults.specs.Servers.{server_name};
ghost use Rattle.grid_servers.specs.Opened.{AllStand, AreOpened, IsNumberOf, StandsAt};
ghost use Rattle.grid_servers.specs.Opened.{at_once, is_silent_at};

use crate::elsewhere::{Elsewhere, find_elsewhere};
use crate::links::{ServerLink, of_sockets, open_links};
use connections::{Nonblocking, Socket};
use grid_faults::Fault;
use grid_marks::{Mark, grid_mark, server_folder, try_known};
use local_grid::grid::LocalGrid;
use local_grid::node::Node;
use served_grid::{ServedGrid, Sockets};
use server_core::server::{CAPACITY, Server};
use share_folders::disk::sync_readable_name;
use share_folders::folder::{Durability, FolderStore, Purpose};
use share_store::error::StoreError;
use std::alloc::{AllocError, Global};
use std::fs;
use std::net::Net;
use std::random::RandomSource;
use std::rt::{Clock, Files};
use user_files::{at_path, if_there, sync_folder};
use wire::message::NodeId;

/// The session of a command's first operation. Each further one over the same links has the next.
pub const FIRST_SESSION: u64 = 1;

/// A server over its folder, with its link.
pub(crate) type ServerNode<R> = Node<FolderStore<R>, ServerLink<R>>;

/// The servers of a grid: in this process those whose folders stand here, and those elsewhere.
pub type FolderGrid<R> = ServedGrid<FolderStore<R>, ServerLink<R>, Nonblocking<Socket>, Sockets<R>>;

/// These servers over their folders of a grid, which are made for writing where they are not there.
/// Synced, their names are on the disk then: a fault of the grid's folder where that fails. They
/// are asked in memory or over sockets; one to which no connection is made is silent, and so is one
/// whose folder cannot be made or read. Those that are opened for reading take no further shares.
/// In a grid that knows its servers no folder is made, and one whose folder has not its mark is
/// silent.
///
/// Where a Unix socket or a file of one line with an address stands in place of a folder, the
/// server is asked over a connection to it, once it has the greeting of its mark. A file that tells
/// no address is a silent server.
pub fn open_servers<R>(
    rt: &R,
    grid: &str,
    servers: &[NodeId],
    purpose: Purpose,
    over_sockets: bool,
) -> Result<FolderGrid<R>, Fault>
where
    R: Files + Net + Clock + RandomSource + AllocGlobal + Clone + Drop,
    ensures { IfOk result (AreOpened grid.now purpose) }
{
    let opening = Opening {
        grid,
        known: grid_mark(rt, grid)?,
        purpose,
    };
    let nodes = open_here(rt, &opening, servers, over_sockets)?;
    let elsewhere = find_elsewhere(rt, &opening, servers, nodes.as_slice())?;
    side_by_side(rt, nodes, elsewhere)
}

/// How the servers of a grid are opened.
#[derive(Clone, Copy)]
pub(crate) struct Opening<'a> {
    pub(crate) grid: &'a str,
    /// The grid's mark, where it has one.
    pub(crate) known: Option<Mark>,
    pub(crate) purpose: Purpose,
}

// Those of these servers whose folders stand, or are made.
fn open_here<R>(
    rt: &R,
    opening: &Opening<'_>,
    servers: &[NodeId],
    over_sockets: bool,
) -> Result<Vec<Option<ServerNode<R>>>, Fault>
where
    R: Files + Net + RandomSource + AllocGlobal + Clone + Drop,
    ensures { IfOk result (λ nodes. AllStand opening.now.grid.now opening.now.known
        opening.now.purpose nodes.items) }
{
    let links = open_links(rt, servers.len(), over_sockets)?;
    name_folders(rt, opening, servers)?;
    open_nodes(rt, opening, servers, links)
}

// Servers of this process and servers elsewhere, before a second has passed.
fn side_by_side<R>(
    rt: &R,
    nodes: Vec<Option<ServerNode<R>>>,
    elsewhere: Elsewhere,
) -> Result<FolderGrid<R>, Fault>
where
    R: Files + Net + Clock + AllocGlobal + Clone + Drop,
    ensures { IfOk result (λ g. g ≡ record {
      here = record { nodes = nodes.items; clock = 0 };
      remotes = elsewhere.remotes.items;
    }) }
{
    let alloc = rt.alloc();
    let here = LocalGrid::new(alloc, nodes);
    let sockets = of_sockets(Sockets::new(rt.clone()?, alloc, elsewhere.addresses))?;
    Ok(ServedGrid::new(alloc, here, elsewhere.remotes, sockets)?)
}

// Has the folders of these servers stand, for writing, and synced puts their names on the disk, all
// at once. A folder that cannot be made is found missing when its store is opened.
fn name_folders<R>(rt: &R, opening: &Opening<'_>, servers: &[NodeId]) -> Result<(), Fault>
where
    R: Files + AllocGlobal,
{
    let Purpose::Writing(durability) = opening.purpose else {
        return Ok(());
    };
    let grid = opening.grid;
    if opening.known.is_none() && make_folders(rt, grid, servers)? {
        let named = sync_readable_name(rt, grid, durability);
        at_path(rt.alloc(), named, grid)?;
    }
    match durability {
        Durability::Synced => at_path(rt.alloc(), sync_folder(rt, grid), grid),
        Durability::Unsynced => Ok(()),
    }
}

// Makes the folders of these servers that are not there and can be made, and says whether there was
// one.
fn make_folders<R>(rt: &R, grid: &str, servers: &[NodeId]) -> Result<bool, Fault>
where
    R: Files + AllocGlobal,
{
    let mut is_one_made = false;
    for server in servers {
        let folder = server_folder(rt.alloc(), grid, *server)?;
        is_one_made |= if_there(fs::create_dir(rt, folder.as_str()))?.is_some();
    }
    Ok(is_one_made)
}

// The servers with these links, each at its number.
#[tactic(auto, using(crate::proofs::Standing::none_stand))]
fn open_nodes<R>(
    rt: &R,
    opening: &Opening<'_>,
    servers: &[NodeId],
    links: Vec<ServerLink<R>>,
) -> Result<Vec<Option<ServerNode<R>>>, Fault>
where
    R: Files + Net + RandomSource + AllocGlobal + Clone + Drop,
    ensures { IfOk result (λ nodes. AllStand opening.now.grid.now opening.now.known
        opening.now.purpose nodes.items) }
{
    let mut nodes = Vec::new(rt.alloc());
    for (server, link) in servers.iter().zip(links) {
        add_node(rt, opening, *server, link, &mut nodes)?;
    }
    Ok(nodes)
}

// Puts a server with its link at its number. One whose folder cannot be made or read is silent.
#[tactic(auto, using(crate::proofs::Standing::still_stand))]
fn add_node<R>(
    rt: &R,
    opening: &Opening<'_>,
    server: NodeId,
    link: ServerLink<R>,
    nodes: &mut Vec<Option<ServerNode<R>>>,
) -> Result<(), Fault>
where
    R: Files + Net + RandomSource + AllocGlobal + Clone + Drop,
    requires { AllStand opening.now.grid.now opening.now.known opening.now.purpose
        nodes.old.items }
    ensures { OnOk result (AllStand opening.now.grid.now opening.now.known opening.now.purpose
        nodes.new.items) }
{
    make_room(nodes, server)?;
    if let Some(opened) = open_server(rt, opening, server)? {
        set_node(opening, server, Node::new(opened, link), nodes);
    }
    Ok(())
}

// Puts a server at its number, where there is room.
#[tactic(auto, using(crate::proofs::Standing::set_stand))]
fn set_node<R>(
    opening: &Opening<'_>,
    server: NodeId,
    node: ServerNode<R>,
    nodes: &mut Vec<Option<ServerNode<R>>>,
)
where
    R: Files + Net + RandomSource + AllocGlobal + Clone + Drop,
    requires room { server < length nodes.old.items }
    requires here { StandsAt opening.now.grid.now opening.now.known opening.now.purpose server
        (Some node) }
    requires others { AllStand opening.now.grid.now opening.now.known opening.now.purpose
        nodes.old.items }
    ensures { AllStand opening.now.grid.now opening.now.known opening.now.purpose
        nodes.new.items }
{
    nodes[usize::from(server)] = Some(node);
}

/// Makes room for the numbers up to this one, at which nothing stands that did not stand there.
#[tactic(auto, using(crate::proofs::Standing::padded_itself, crate::proofs::Standing::padded_more))]
pub(crate) fn make_room<N: Drop>(
    nodes: &mut Vec<Option<N>>,
    server: NodeId,
) -> Result<(), AllocError>
    ensures long { OnOk result (server < length nodes.new.items) }
    ensures same { OnOk result ((number : ℕ)
        → get_or nodes.new.items number None ≡ get_or nodes.old.items number None) }
{
    for _ in nodes.len()..usize::from(server) + 1 {
        nodes.push(None)?;
    }
    Ok(())
}

// The server over its folder, if that is there and can be read, and has its mark in a grid that
// knows its servers.
fn open_server<R>(
    rt: &R,
    opening: &Opening<'_>,
    server: NodeId,
) -> Result<Option<Server<FolderStore<R>>>, Fault>
where
    R: Files + RandomSource + AllocGlobal + Clone + Drop,
    ensures { IfOk result (λ opened. IfSome opened (λ s. (s.store.folder
        ≡ in_folder opening.now.grid.now (server_name server))
        × (s.store.durability ≡ durability_of opening.now.purpose)
        × (s.buckets ≡ []) × IsNumberOf opening.now.known server)) }
{
    if !is_own(rt, opening, server)? {
        return Ok(None);
    }
    let folder = server_folder(rt.alloc(), opening.grid, server)?;
    match FolderStore::open_standing(rt, folder.as_str(), opening.purpose) {
        Ok(store) => Ok(Some(serving(rt.alloc(), store))),
        Err(StoreError::StoreFault) => Ok(None),
        Err(StoreError::OutOfMemory) => Err(Fault::OutOfMemory),
    }
}

// Whether a server's folder has its mark, in a grid that knows its servers.
fn is_own<R>(rt: &R, opening: &Opening<'_>, server: NodeId) -> Result<bool, Fault>
where
    R: Files + AllocGlobal,
    ensures { IfOk result (λ own. IsTrue own → IsNumberOf opening.now.known server) }
{
    match &opening.known {
        None => Ok(true),
        Some(known) => Ok(if_there(try_known(rt, opening.grid, server, known))?.is_some()),
    }
}

// The server of a store.
fn serving<R>(alloc: Global, store: FolderStore<R>) -> Server<FolderStore<R>>
where
    R: Files + AllocGlobal + Clone + Drop,
    ensures { (result.store ≡ store) × (result.buckets ≡ []) }
{
    let readonly = store.is_readonly();
    Server::start(alloc, store, CAPACITY, readonly)
}

/// Whether nothing comes from a server of a grid any more, or nothing ever came. One that is served
/// elsewhere is silent while no connection to it stands that was tried.
pub fn is_silent<R>(grid: &FolderGrid<R>, server: NodeId) -> bool
where
    R: Files + Net + Clock + AllocGlobal + Clone + Drop,
    ensures { result ≡ is_silent_at (get_or grid.now.here.nodes server None)
        (get_or grid.now.remotes server None) }
{
    let position = usize::from(server);
    let here = standing_at(grid.here().nodes(), position);
    let elsewhere = standing_at(grid.remotes(), position);
    match (here, elsewhere) {
        (Some(node), _) => node.is_silent(),
        (None, Some(remote)) => remote.is_away(),
        (None, None) => true,
    }
}

// What stands at a position, if there is anything.
fn standing_at<T>(places: &[Option<T>], position: usize) -> Option<&T>
    ensures { option_copied result ≡ get_or places.now position None }
{
    places.get(position)?.as_ref()
}

/// How many pieces of a share may be on their way at once between a command and each of these
/// servers: eight where one is served elsewhere, since a round trip to it takes its time, and one
/// where all stand here.
pub fn pieces_at_once<R>(grid: &FolderGrid<R>) -> usize
where
    R: Files + Net + Clock + AllocGlobal + Clone + Drop,
    ensures { result ≡ at_once grid.now.remotes }
{
    if grid.remotes().is_empty() { 1 } else { 8 }
}
