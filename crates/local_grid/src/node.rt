//! A server of the grid, with its link.

ghost use Rattle.std.specs.Prelude.{◌≡◌, ◌<◌, false, is_none, length, IfOk, IfSome, OnErr};
ghost use Rattle.server_core.specs.Buckets.{HasHasherAt};
ghost use Rattle.tagged_hash.specs.TaggedHasher.{input_of};
ghost use Rattle.local_grid.specs.Nodes.{Exchanges, IsLeftUnanswered, IsServed, StopsShort};
ghost use Rattle.local_grid.specs.Nodes.{client_node, ticked_node};
ghost use Rattle.local_grid.specs.declared.link.Way.TheVariants.{ToClient};

use crate::link::{Link, Way};
use server_core::error::ServerFault;
use server_core::server::Server;
use share_store::store::Store;
use std::alloc::AllocError;
use std::marker::Model;
use tagged_hash::{TaggedHasher, WaitingHasher};
use wire::message::{Message, NodeId};

/// The client's node.
pub const CLIENT: NodeId = 256;

/// A server with its link to the client. Once its store has failed, or its link has lost a message,
/// the node is silent: nothing goes to it any more, and nothing comes from it.
#[derive(Drop)]
pub struct Node<S: Store, L: Link> {
    server: Server<S>,
    link: L,
    silent: bool,
}

impl<S: Store, L: Link> Model for Node<S, L> {
    ghost use Rattle.local_grid.specs.Nodes.{NodeState};

    ghost Value = { NodeState S L };

    ghost view = { λ n. record { server = n.server; link = n.link; silent = n.silent } };
}

impl<S: Store, L: Link> Node<S, L> {
    /// A server that can be asked over a link.
    pub fn new(server: Server<S>, link: L) -> Node<S, L>
        ensures { result ≡ record { server = server; link = link; silent = false } }
    {
        Node {
            server,
            link,
            silent: false,
        }
    }

    /// The server.
    pub fn server(&self) -> &Server<S>
        ensures { result.now ≡ self.now.server }
    {
        &self.server
    }

    /// Does nothing come from it any more?
    pub fn is_silent(&self) -> bool
        ensures { result ≡ self.now.silent }
    {
        self.silent
    }

    /// The first bucket from a position on whose hasher has something waiting.
    pub(crate) fn waiting_from(&self, position: usize) -> Option<(usize, &WaitingHasher)>
        ensures own { IfSome result
            (λ found. HasHasherAt found.0 found.1.now self.now.server.buckets) }
        ensures within { IfSome result (λ found. found.0 < length self.now.server.buckets) }
    {
        self.server.waiting_from(position)
    }

    /// What waited in the bucket at a position was hashed elsewhere.
    pub(crate) fn take_over(&mut self, position: usize, hashed: TaggedHasher)
        requires within { position < length self.old.server.buckets }
        requires own { HasHasherAt position (input_of hashed) self.old.server.buckets }
        ensures { self.new ≡ self.old }
    {
        self.server.take_over(position, hashed);
    }

    /// The time.
    pub(crate) fn tick(&mut self, now: u64)
        ensures { self.new ≡ ticked_node now self.old }
    {
        if !self.silent {
            self.server.tick(now);
        }
    }

    /// Carries a message to the server, and its answer back. `frame` is room for frames.
    pub(crate) fn exchange(
        &mut self,
        message: &Message,
        now: u64,
        frame: &mut Vec<u8>,
    ) -> Result<Option<Message>, AllocError>
        ensures ok { IfOk result
            (λ answer. Exchanges S.calls L.carries self.old message.now now answer self.new) }
        ensures err { OnErr result
            (StopsShort S.calls L.carries L.gives_up self.old message.now now self.new) }
    {
        if self.silent {
            return Ok(None);
        }
        match self.link.carry(Way::ToServer, message, frame)? {
            Some(came) => self.serve(&came, now, frame),
            None => {
                self.silent = true;
                Ok(None)
            }
        }
    }

    // What the server says to a message that came to it, and what comes of that to the client.
    fn serve(
        &mut self,
        came: &Message,
        now: u64,
        frame: &mut Vec<u8>,
    ) -> Result<Option<Message>, AllocError>
        requires { self.old.silent ≡ false }
        ensures ok { IfOk result
            (λ answer. IsServed S.calls L.carries self.old came.now now answer self.new) }
        ensures err { OnErr result
            (IsLeftUnanswered S.calls L.gives_up self.old came.now now self.new) }
        ensures speaks { OnErr result (self.new.silent ≡ false) }
    {
        match self.server.on_message(CLIENT, came, now) {
            Ok(Some(said)) => self.send_back(&said, frame),
            Ok(None) => Ok(None),
            Err(ServerFault::StoreFault) => {
                self.silent = true;
                Ok(None)
            }
            Err(ServerFault::OutOfMemory) => Err(AllocError),
        }
    }

    // Carries the server's answer back.
    fn send_back(
        &mut self,
        said: &Message,
        frame: &mut Vec<u8>,
    ) -> Result<Option<Message>, AllocError>
        ensures came { IfOk result
            (λ came. L.carries self.old.link ToClient said.now came self.new.link) }
        ensures silent { IfOk result (λ came. self.new.silent ≡ is_none came) }
        ensures server { self.new.server ≡ self.old.server }
        ensures err { OnErr result (L.gives_up self.old.link self.new.link) }
        ensures speaks { OnErr result (self.new.silent ≡ self.old.silent) }
    {
        let came = self.link.carry(Way::ToClient, said, frame)?;
        self.silent = came.is_none();
        Ok(came)
    }
}
