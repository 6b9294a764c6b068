//! An upload: its course, and the source of its shares' bytes.

ghost use Rattle.std.specs.Prelude.{◌≡◌, ◌≢◌, ◌<◌, ℕ, IfOk, IsOk, OnOk, OnErr, length, map};
ghost use Rattle.std.specs.Prelude.{is_some, nat_eq};
ghost use Rattle.std.specs.List.{IsDistinct};
ghost use Rattle.upload_core.specs.Calls.{GivesUp, MovesCourse, upload_calls};
ghost use Rattle.upload_core.specs.Course.{IsInside};
ghost use Rattle.request_record.specs.Asking.{after_message};
ghost use Rattle.request_record.specs.Follow.{Follows, IsSaid, Nothing};
ghost use Rattle.upload_core.specs.Moves.{Advances, Begins, Stops, StopsAt, TicksOn};
ghost use Rattle.upload_core.specs.Right.{IsRight};
ghost use Rattle.upload_core.specs.Sending.{IsBody, Takes, first_to_send};
ghost use Rattle.request_record.specs.declared.requests.Asked.TheVariants.{Writing};
ghost use Rattle.upload_core.specs.declared.pieces.PieceFault.TheVariants.{OutOfMemory};
ghost use Rattle.upload_core.specs.declared.status.ServerInfo.{ServerInfo};
ghost use Rattle.upload_core.specs.declared.status.UploadStatus.TheVariants.{Failed, Running};

use crate::pieces::{PieceFault, Pieces};
use crate::state::Course;
use crate::status::{ServerInfo, UploadGoal, UploadStatus};
use request_record::operation::Operation;
use request_record::requests::Asked;
use std::alloc::{AllocError, Global};
use std::marker::Model;
use wire::message::{Body, Message, NodeId, ShareId, WriteData};

/// An upload of the shares that `P` gives the bytes of.
#[derive(Drop)]
pub struct Upload<P: Pieces + Drop> {
    pieces: P,
    course: Course,
}

impl<P: Pieces + Drop> Model for Upload<P> {
    ghost use Rattle.std.specs.Prelude.{◌≡◌};
    ghost use Rattle.upload_core.specs.Course.{IsKept};
    ghost use Rattle.upload_core.specs.Sending.{Uploading};

    ghost Value = { Uploading P };

    ghost view = { λ u. record { pieces = u.pieces; course = u.course } };

    ghost invariant = { λ u.
        (P.digests u.pieces ≡ u.course.goal.digests)
        × (P.share_length u.pieces ≡ u.course.goal.share_length)
        × IsKept u.course };
}

impl<P: Pieces + Drop> Upload<P> {
    /// Asks each of the servers, in the order of the file, which shares it holds. With no server
    /// the upload ends at once. The servers are of distinct nodes, and the pieces are those of the
    /// goal's shares.
    pub(crate) fn start(
        alloc: Global,
        pieces: P,
        goal: UploadGoal,
        happy: u16,
        servers: &[ServerInfo],
        session: u64,
        now: u64,
    ) -> Result<Upload<P>, AllocError>
        requires distinct { IsDistinct nat_eq (map (λ (s : ServerInfo). s.node) servers.now) }
        requires own { P.digests pieces ≡ goal.digests }
        requires long { P.share_length pieces ≡ goal.share_length }
        ensures begins { IfOk result (λ u. Begins goal happy servers.now session now u.course) }
        ensures pieces { IfOk result (λ u. u.pieces ≡ pieces) }
    {
        let course = Course::begin(alloc, goal, happy, servers, session, now)?;
        Ok(Upload { pieces, course })
    }

    /// Where the upload stands. While it runs a request is outstanding, and what ended stays so.
    pub fn status(&self) -> &UploadStatus
        ensures value { result.now ≡ self.now.course.status }
        ensures right { IsRight self.now.course }
    {
        self.course.status()
    }

    /// Is there a message to send?
    pub fn has_outgoing(&self) -> bool
        ensures { result ≡ is_some (first_to_send self.now.course) }
    {
        self.course.first().is_some()
    }

    // What a request's message says, with the bytes that the pieces give, or their fault.
    fn body_of(
        &mut self,
        alloc: Global,
        asked: Asked,
    ) -> Result<Result<Body, PieceFault>, AllocError>
        requires { IsInside self.old.course.goal asked }
        ensures ok { IfOk result (λ told. IsBody P.gives P.fails
            self.old.course.goal.cap.storage_index self.old.pieces asked told self.new.pieces) }
        ensures err { OnErr result (self.new ≡ self.old) }
        ensures course { self.new.course ≡ self.old.course }
    {
        let index = self.course.storage_index();
        match asked {
            Asked::Writing(share, offset, len) => {
                self.write_body(alloc, ShareId { index, share }, offset, len)
            }
            _ => Ok(Ok(asked.body(index).unwrap())),
        }
    }

    // A Write of the bytes that the pieces give, or their fault.
    fn write_body(
        &mut self,
        alloc: Global,
        id: ShareId,
        offset: u64,
        len: u32,
    ) -> Result<Result<Body, PieceFault>, AllocError>
        requires { IsInside self.old.course.goal (Writing id.share offset len) }
        ensures ok { IfOk result (λ told. IsBody P.gives P.fails id.index self.old.pieces
            (Writing id.share offset len) told self.new.pieces) }
        ensures err { OnErr result (self.new ≡ self.old) }
        ensures course { self.new.course ≡ self.old.course }
    {
        let mut bytes = vec![in alloc; 0u8; len as usize]?;
        match self.pieces.piece(id.share, offset, &mut bytes) {
            Ok(()) => {
                let data = WriteData::from_vec(bytes).unwrap();
                Ok(Ok(Body::Write(id, offset, data)))
            }
            Err(fault) => Ok(Err(fault)),
        }
    }
}

impl<P: Pieces + Drop> Operation for Upload<P> {
    ghost calls = { upload_calls P.gives P.fails };

    fn is_running(&self) -> bool {
        self.course.is_running() || self.has_outgoing()
    }

    /// `None` too where the upload failed, also now by a fault of the pieces. Without memory it is
    /// as it was.
    fn take_outgoing(&mut self, alloc: Global) -> Result<Option<(NodeId, Message)>, AllocError>
        ensures ok { IfOk result (λ taken. Takes P.gives P.fails self.old taken self.new) }
        ensures err { OnErr result (GivesUp self.old self.new) }
        ensures follows { Follows Nothing self.old.course.requests self.new.course.requests }
        ensures same { OnErr result (self.new ≡ self.old) }
    {
        let Some(position) = self.course.first() else {
            return Ok(None);
        };
        let (server, asked) = self.course.request_at(position);
        match self.body_of(alloc, asked)? {
            Ok(body) => Ok(Some((server, self.course.send(position, body)))),
            Err(fault) => {
                self.course.fail(fault);
                Ok(None)
            }
        }
    }

    /// On an `Err`, which only one that runs gives, it has failed; its record goes on all the same.
    fn on_message(&mut self, from: NodeId, message: Message, now: u64) -> Result<(), AllocError>
        ensures ok { OnOk result (MovesCourse (Advances from message now) self.old self.new) }
        ensures err { OnErr result (GivesUp self.old self.new) }
        ensures follows { Follows (IsSaid from message self.old.course.requests.session)
            self.old.course.requests self.new.course.requests }
        ensures failed { OnErr result (self.new.course.status ≡ Failed OutOfMemory) }
        ensures stops { OnErr result (Stops (after_message from message now
            self.old.course.requests) self.old.course self.new.course) }
        ensures ended { self.old.course.status ≢ Running → IsOk result }
        ensures pieces { self.new.pieces ≡ self.old.pieces }
    {
        let outcome = self.course.hear(from, message, now);
        self.course.fail_by(&outcome);
        outcome
    }

    /// On an `Err` one that ran has failed, and one that ended is as it was.
    fn tick(&mut self, now: u64) -> Result<(), AllocError>
        ensures ok { OnOk result (MovesCourse (TicksOn now) self.old self.new) }
        ensures err { OnErr result (GivesUp self.old self.new) }
        ensures follows { Follows Nothing self.old.course.requests self.new.course.requests }
        ensures stops { OnErr result (StopsAt now self.old.course self.new.course) }
        ensures pieces { self.new.pieces ≡ self.old.pieces }
    {
        if !self.course.is_running() {
            return self.course.note(now);
        }
        let outcome = self.course.pass(now);
        self.course.fail_by(&outcome);
        outcome
    }
}
