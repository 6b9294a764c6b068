//! The servers of a grid that stay open from one upload to the next.

ghost use Rattle.std.specs.Prelude.{◌≡◌, IfOk, IfSome, true};
ghost use Rattle.grid_servers.specs.Opened.{AreOpenedToWrite};

use crate::mending::Clearance;
use crate::placing::Placing;
use grid_faults::Fault;
use grid_servers::{FIRST_SESSION, FolderGrid, Purpose, is_silent, open_servers};
use share_files::{FolderFiles, KnownFiles};
use std::alloc::AllocError;
use std::io::ErrorKind;
use std::marker::Model;
use std::net::Net;
use std::random::RandomSource;
use std::rt::{Clock, Files};
use std::time::SystemTime;
use wire::message::NodeId;

/// Servers of a grid that were opened for writing, over which uploads may have been carried since.
#[derive(Drop)]
pub struct OpenGrid<R>
where
    R: Files + Net + Clock + AllocGlobal + Clone + Drop,
{
    pub(crate) nodes: FolderGrid<R>,
    // The servers whose folders were listed as they were opened.
    clear: Vec<NodeId>,
    // Those whose files are known since then.
    known: Vec<KnownServer>,
    // That of the next upload.
    session: u64,
}

// A server, and the share files of its folder as it was listed once.
#[derive(Drop)]
pub(crate) struct KnownServer {
    pub(crate) server: NodeId,
    pub(crate) files: KnownFiles,
}

impl<R> Model for OpenGrid<R>
where
    R: Files + Net + Clock + AllocGlobal + Clone + Drop,
{
    ghost use Rattle.grid_servers.specs.Grids.{FolderGridState};
    ghost use Rattle.grid_shares.specs.Standing.{Standing};

    ghost Value = { Standing (FolderGridState R.Stream) };

    ghost view = { λ g. record { grid = g.nodes; session = g.session } };
}

impl<R> OpenGrid<R>
where
    R: Files + Net + Clock + RandomSource + AllocGlobal + Clone + Drop,
{
    /// Opens these servers of a grid, of which those are clear.
    pub(crate) fn open(
        rt: &R,
        placing: &Placing<'_>,
        servers: &[NodeId],
        clear: Vec<NodeId>,
    ) -> Result<OpenGrid<R>, Fault>
        ensures { IfOk result (λ g. AreOpenedToWrite placing.now.grid.now placing.now.durability
            g.grid) }
    {
        let purpose = Purpose::Writing(placing.durability);
        let nodes = open_servers(rt, placing.grid, servers, purpose, placing.net)?;
        Ok(OpenGrid {
            nodes,
            clear,
            known: Vec::new(rt.alloc()),
            session: FIRST_SESSION,
        })
    }

    /// The session of an upload that is begun.
    pub(crate) fn next_session(&mut self) -> u64
        ensures session { result ≡ self.old.session }
        ensures grid { self.new.grid ≡ self.old.grid }
    {
        let session = self.session;
        self.session = session.saturating_add(1);
        session
    }

    /// Lists the share files of a server's folder, where they are not known since the servers were
    /// opened. What comes into it then comes by uploads over these servers, or by another program.
    /// Where it cannot be listed they are not known.
    pub(crate) fn learn(
        &mut self,
        rt: &R,
        server: NodeId,
        folder: &str,
        now: SystemTime,
    ) -> Result<(), AllocError>
        ensures { self.new ≡ self.old }
    {
        if self.known_files(server).is_none() {
            if let Some(files) = list_known(&mut FolderFiles::new(rt, folder, now))? {
                self.known.push(KnownServer { server, files })?;
            }
        }
        Ok(())
    }

    /// The share files of a server's folder, where they are known.
    pub(crate) fn known_files(&self, server: NodeId) -> Option<&KnownServer>
        ensures { IfSome result (λ known. known.now.server ≡ server) }
    {
        self.known.iter().find(|known| known.server == server)
    }

    /// These servers for another upload, where no file was touched on its way and those are clear
    /// that were.
    pub(crate) fn after(self, clearance: &Clearance) -> Option<OpenGrid<R>>
        ensures { IfSome result (λ g. (g ≡ self) × (clearance.now.is_still ≡ true)) }
    {
        if clearance.is_still && self.clear.as_slice() == clearance.clear.as_slice() {
            Some(self)
        } else {
            None
        }
    }

    // These servers, where each that was listed still speaks.
    pub(crate) fn speaking(self) -> Option<OpenGrid<R>>
        ensures { IfSome result (λ g. g ≡ self) }
    {
        if self.all_speak() { Some(self) } else { None }
    }

    fn all_speak(&self) -> bool {
        self.clear
            .iter()
            .all(|server| !is_silent(&self.nodes, *server))
    }
}

// The share files of a folder. None where it cannot be listed.
fn list_known<R>(files: &mut FolderFiles<'_, R>) -> Result<Option<KnownFiles>, AllocError>
where
    R: Files + RandomSource + AllocGlobal + Clone + Drop,
{
    match files.list_known() {
        Ok(known) => Ok(Some(known)),
        Err(error) if error.kind() == ErrorKind::OutOfMemory => Err(AllocError),
        Err(_) => Ok(None),
    }
}
