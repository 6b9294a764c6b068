//! An upload that is ready to begin.

ghost use Rattle.std.specs.Prelude.{◌≡◌, ◌≤◌, IfOk, map, nat_eq};
ghost use Rattle.std.specs.List.{IsDistinct};
ghost use Rattle.upload_core.specs.Moves.{Begins};
ghost use Rattle.upload_core.specs.State.{with_ahead};
ghost use Rattle.upload_core.specs.declared.status.ServerInfo.{ServerInfo};

use crate::pieces::Pieces;
use crate::status::{ServerInfo, UploadGoal};
use crate::upload::Upload;
use std::alloc::{AllocError, Global};
use std::marker::Model;

/// An upload that is ready to begin: where the bytes of its shares come from, what is to be placed,
/// and how many servers are to hold a share of their own.
#[derive(Drop)]
pub struct ReadyUpload<P: Pieces + Drop> {
    pieces: P,
    goal: UploadGoal,
    happy: u16,
}

impl<P: Pieces + Drop> Model for ReadyUpload<P> {
    ghost use Rattle.std.specs.Prelude.{◌≡◌};
    ghost use Rattle.upload_core.specs.Ready.{Ready};

    ghost Value = { Ready P };

    ghost view = { λ r. record { pieces = r.pieces; goal = r.goal; happy = r.happy } };

    ghost invariant = { λ r. (P.digests r.pieces ≡ r.goal.digests)
        × (P.share_length r.pieces ≡ r.goal.share_length) };
}

impl<P: Pieces + Drop> ReadyUpload<P> {
    /// The pieces are those of the goal's shares.
    pub fn new(pieces: P, goal: UploadGoal, happy: u16) -> ReadyUpload<P>
        requires own { P.digests pieces ≡ goal.digests }
        requires long { P.share_length pieces ≡ goal.share_length }
        ensures { result ≡ record { pieces = pieces; goal = goal; happy = happy } }
    {
        ReadyUpload {
            pieces,
            goal,
            happy,
        }
    }

    /// The same, where so many pieces of a share may wait for their answers at one server: 1 or
    /// more.
    pub fn with_ahead(self, ahead: u8) -> ReadyUpload<P>
        requires { 1 ≤ ahead }
        ensures pieces { result.pieces ≡ self.pieces }
        ensures goal { result.goal ≡ with_ahead ahead self.goal }
        ensures happy { result.happy ≡ self.happy }
    {
        let (pieces, goal, happy) = self.into_parts();
        ReadyUpload {
            pieces,
            goal: goal.with_ahead(ahead),
            happy,
        }
    }

    /// Where the bytes of the shares come from.
    pub fn pieces(&self) -> &P
        ensures { result.now ≡ self.now.pieces }
    {
        &self.pieces
    }

    /// What is to be placed.
    pub fn goal(&self) -> &UploadGoal
        ensures { result.now ≡ self.now.goal }
    {
        &self.goal
    }

    /// How many servers are to hold a share of their own.
    pub fn happy(&self) -> u16
        ensures { result ≡ self.now.happy }
    {
        self.happy
    }

    /// The pieces, the goal and how many servers are wanted. The pieces are those of the goal's
    /// shares.
    pub fn into_parts(self) -> (P, UploadGoal, u16)
        ensures pieces { result.0 ≡ self.pieces }
        ensures goal { result.1 ≡ self.goal }
        ensures happy { result.2 ≡ self.happy }
        ensures own { P.digests self.pieces ≡ self.goal.digests }
        ensures long { P.share_length self.pieces ≡ self.goal.share_length }
    {
        (self.pieces, self.goal, self.happy)
    }

    /// Begins the upload: each of the servers is asked, in the order of the file, which shares it
    /// holds. Each piece of a share waits for the answer to the one before it, if `with_ahead` said
    /// nothing else. With no server it ends at once. The servers are of distinct nodes.
    pub fn start(
        self,
        alloc: Global,
        servers: &[ServerInfo],
        session: u64,
        now: u64,
    ) -> Result<Upload<P>, AllocError>
        requires distinct { IsDistinct nat_eq (map (λ (s : ServerInfo). s.node) servers.now) }
        ensures begins { IfOk result (λ upload.
            Begins self.goal self.happy servers.now session now upload.course) }
        ensures pieces { IfOk result (λ upload. upload.pieces ≡ self.pieces) }
    {
        let (pieces, goal, happy) = self.into_parts();
        Upload::start(alloc, pieces, goal, happy, servers, session, now)
    }
}
