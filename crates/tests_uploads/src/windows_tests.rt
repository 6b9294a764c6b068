//! Uploads of which eight pieces of a share may wait at once: the order of what is asked, and what
//! a message costs that is lost.

ghost use Rattle.std.specs.Prelude.{◌≡◌, length, IfSome};

use crate::courses::{Asked, Course};
use crate::upload_core_tests::{Conduct, verify_cap};
use crate::upload_rounds_tests::{ONE, happy_pairs};
use Conduct::{Honest, Miscounts};
use cap_text::ReadCap;
use request_record::operation::Operation;
use std::alloc::Global;
use upload_core::pieces::WholeShares;
use upload_core::status::{UploadGoal, UploadStatus};
use upload_core::{ReadyUpload, Upload};
use wire::message::ShareLength;

// Nine whole pieces, and one of 5,088 bytes.
const LENGTH: usize = 300_000;

fn long_share(alloc: Global) -> Option<Vec<u8>>
    ensures { IfSome result (λ share. length share.items ≡ 300000) }
{
    vec![in alloc; 7u8; LENGTH].ok()
}

// An upload of one share, of one, to one server, at which eight of its pieces may wait.
fn begun_ahead(alloc: Global) -> Option<Upload<WholeShares>> {
    let shares = WholeShares::new(vec![in alloc; long_share(alloc)?].ok()?);
    let digests = shares.digests(alloc).ok()?;
    let cap = ReadCap::new([1; 16], [2; 32], 1, 1, 299_000).ok()?;
    let length = ShareLength::new(LENGTH as u64)?;
    let goal = UploadGoal::new(cap.to_verify(), digests, length);
    let ready = ReadyUpload::new(shares, goal, 1).with_ahead(8);
    ready.start(alloc, &ONE, 5, 0).ok()
}

// The pieces in order, and Close after the last answer.
const IN_ORDER: [(u64, Asked); 13] = [
    (0, Asked::Ask),
    (0, Asked::Allocate(0)),
    (0, Asked::Write(0, 0)),
    (0, Asked::Write(0, 32_768)),
    (0, Asked::Write(0, 65_536)),
    (0, Asked::Write(0, 98_304)),
    (0, Asked::Write(0, 131_072)),
    (0, Asked::Write(0, 163_840)),
    (0, Asked::Write(0, 196_608)),
    (0, Asked::Write(0, 229_376)),
    (0, Asked::Write(0, 262_144)),
    (0, Asked::Write(0, 294_912)),
    (0, Asked::Close(0)),
];

// The fourth piece or its answer is lost: it and those behind it are sent again.
const FROM_THE_FOURTH: [(u64, Asked); 20] = [
    (0, Asked::Ask),
    (0, Asked::Allocate(0)),
    (0, Asked::Write(0, 0)),
    (0, Asked::Write(0, 32_768)),
    (0, Asked::Write(0, 65_536)),
    (0, Asked::Write(0, 98_304)),
    (0, Asked::Write(0, 131_072)),
    (0, Asked::Write(0, 163_840)),
    (0, Asked::Write(0, 196_608)),
    (0, Asked::Write(0, 229_376)),
    (0, Asked::Write(0, 262_144)),
    (0, Asked::Write(0, 294_912)),
    (5, Asked::Write(0, 98_304)),
    (5, Asked::Write(0, 131_072)),
    (5, Asked::Write(0, 163_840)),
    (5, Asked::Write(0, 196_608)),
    (5, Asked::Write(0, 229_376)),
    (5, Asked::Write(0, 262_144)),
    (5, Asked::Write(0, 294_912)),
    (5, Asked::Close(0)),
];

// Is the share kept, and was it asked for so?
fn is_kept(alloc: Global, mut course: Course, expected: &[(u64, Asked)]) -> Option<bool> {
    let mut upload = begun_ahead(alloc)?;
    course.carry(alloc, &mut upload)?;
    Some(
        course.keeps(&verify_cap()?, 0, 0, &long_share(alloc)?)
            && course.has_sent_to(alloc, 0, expected)
            && happy_pairs(&upload) == Some(&[(0, 0)]),
    )
}

fn goes_in_order(alloc: Global) -> Option<bool> {
    is_kept(alloc, Course::new(alloc, &[Honest])?, &IN_ORDER)
}

fn goes_past_a_lost_write(alloc: Global) -> Option<bool> {
    let mut course = Course::new(alloc, &[Honest])?;
    course.unheard = Some(Asked::Write(0, 98_304));
    is_kept(alloc, course, &FROM_THE_FOURTH)
}

fn goes_past_a_lost_answer(alloc: Global) -> Option<bool> {
    let mut course = Course::new(alloc, &[Honest])?;
    course.lost = Some(Asked::Write(0, 98_304));
    is_kept(alloc, course, &FROM_THE_FOURTH)
}

#[test]
fn eight_pieces_wait_at_once(rt: HostRuntime) {
    assert!(rt; goes_in_order(rt.alloc()) == Some(true));
    assert!(rt; goes_past_a_lost_write(rt.alloc()) == Some(true));
    assert!(rt; goes_past_a_lost_answer(rt.alloc()) == Some(true));
}

// A server that counts wrong fails the transfer once: one Abort, and no further piece.
const MISCOUNTED: [(u64, Asked); 11] = [
    (0, Asked::Ask),
    (0, Asked::Allocate(0)),
    (0, Asked::Write(0, 0)),
    (0, Asked::Write(0, 32_768)),
    (0, Asked::Write(0, 65_536)),
    (0, Asked::Write(0, 98_304)),
    (0, Asked::Write(0, 131_072)),
    (0, Asked::Write(0, 163_840)),
    (0, Asked::Write(0, 196_608)),
    (0, Asked::Write(0, 229_376)),
    (0, Asked::Abort(0)),
];

fn is_given_up_once(alloc: Global) -> Option<bool> {
    let mut course = Course::new(alloc, &[Miscounts])?;
    let mut upload = begun_ahead(alloc)?;
    course.carry(alloc, &mut upload)?;
    Some(
        course.has_sent_to(alloc, 0, &MISCOUNTED)
            && matches!(upload.status(), UploadStatus::Unhappy(0, _)),
    )
}

#[test]
fn a_transfer_is_given_up_once(rt: HostRuntime) {
    assert!(rt; is_given_up_once(rt.alloc()) == Some(true));
}
