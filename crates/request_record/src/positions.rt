//! Requests in memory with their positions: which a tick finds due, and which are not to be sent
//! any more.

ghost use Rattle.std.specs.Prelude.{◌≡◌, ◌≤◌, ◌<◌, ◌++◌, length, map, take, drop};
ghost use Rattle.std.specs.Prelude.{slice_get, slice_set, Some, vec_len, option_map};
ghost use Rattle.std.specs.Prelude.{if◌then◌else◌, All, IfOk, false, IsTrue, ◌↔◌};
ghost use Rattle.std.specs.List.{remove};
ghost use Rattle.std.specs.List.Sorted.{IsNonDecreasingBy};
ghost use Rattle.request_record.specs.Record.{is_lost_at, is_resent_at, is_lost_in};
ghost use Rattle.request_record.specs.Record.{without, without_lost, IsSentFew};
ghost use Rattle.request_record.specs.Record.{was_sent_again_in, sent_to, AreInOrder};
ghost use Rattle.request_record.specs.Written.{IsKeptAt, is_written};
ghost use Rattle.request_record.specs.Entries.{IsCut, request_here, positions_of, first_position};
ghost use Rattle.request_record.specs.Entries.{ticked_entry, settled_entry, IsHere};
ghost use Rattle.request_record.specs.declared.entries.Entry.{Entry};

use crate::entries::{Entries, Entry};
use crate::requests::{Outcome, Request};
use std::alloc::{AllocError, Global};
use std::collections::VecDeque;

/// How many requests have a smaller position.
pub(crate) fn index_of(entries: &[Entry], position: usize) -> usize
    requires { IsNonDecreasingBy (λ e. e.position) entries.now }
    ensures { IsCut position entries.now result }
{
    entries.partition_point(|entry| entry.position < position)
}

/// Does the request at this index have this position?
pub(crate) fn has_position(entries: &[Entry], at: usize, position: usize) -> bool
    ensures { IsTrue result ↔ IsHere position (slice_get entries.now at) }
{
    match entries.get(at) {
        Some(entry) => entry.position == position,
        None => false,
    }
}

/// The request at this index, where its position is this one.
pub(crate) fn request_here(entries: &[Entry], at: usize, position: usize) -> Option<&Request>
    ensures { option_map (λ r. r.now) result ≡ request_here position (slice_get entries.now at) }
{
    match entries.get(at) {
        Some(entry) if entry.position == position => Some(&entry.request),
        _ => None,
    }
}

/// The positions of the requests that a tick at this second sends again.
pub(crate) fn find_resent(
    alloc: Global,
    entries: &[Entry],
    now: u64,
) -> Result<VecDeque<usize>, AllocError>
    ensures { IfOk result
        (λ positions. positions.items ≡ positions_of (is_resent_at now) entries.now) }
{
    let mut positions = VecDeque::new(alloc);
    for entry in entries {
        if entry.request.is_resent_at(now) {
            positions.push_back(entry.position)?;
        }
    }
    Ok(positions)
}

/// The positions of the requests that a tick at this second finds lost.
pub(crate) fn find_lost(
    alloc: Global,
    entries: &[Entry],
    now: u64,
) -> Result<Vec<usize>, AllocError>
    ensures { IfOk result
        (λ positions. positions.items ≡ positions_of (is_lost_at now) entries.now) }
{
    let mut positions = Vec::new(alloc);
    for entry in entries {
        if entry.request.is_lost_at(now) {
            positions.push(entry.position)?;
        }
    }
    Ok(positions)
}

/// Each request takes note of a tick at this second.
fn tick_each(entries: &mut [Entry], now: u64)
    requires { All (λ e. IsSentFew e.request) entries.old }
    ensures { entries.new ≡ map (ticked_entry now) entries.old }
{
    for entry in entries.iter_mut() {
        entry.request.tick(now);
    }
}

/// Each request from this index on takes note of a tick at this second.
pub(crate) fn tick_from(entries: &mut [Entry], at: usize, now: u64)
    requires few { All (λ e. IsSentFew e.request) entries.old }
    requires there { at ≤ length entries.old }
    ensures { entries.new ≡ take at entries.old ++ map (ticked_entry now) (drop at entries.old) }
{
    tick_each(&mut entries[at..], now);
}

/// The request at this index is settled so.
pub(crate) fn settle(entries: &mut Vec<Entry>, at: usize, outcome: Outcome)
    requires { at < vec_len entries.old }
    ensures { (e : Entry) → slice_get entries.old.items at ≡ Some e
        → entries.new.items ≡ slice_set entries.old.items at (settled_entry outcome e) }
{
    entries[at].request.outcome = outcome;
}

/// The request at this index is let go, if it was written.
pub(crate) fn let_go(entries: &mut Vec<Entry>, at: usize)
    requires { at < vec_len entries.old }
    ensures { (e : Entry) → slice_get entries.old.items at ≡ Some e
        → entries.new.items ≡ if is_written e.request
        then remove entries.old.items at
        else entries.old.items }
{
    if entries[at].request.is_written() {
        entries.remove(at);
    }
}

/// The position of the first request that waits for an answer, or the end.
pub(crate) fn first_waiting(entries: &[Entry], end: usize) -> usize
    ensures { result ≡ first_position entries.now end }
{
    for entry in entries {
        if entry.request.is_outstanding() {
            return entry.position;
        }
    }
    end
}

/// Is the request at this position lost at a tick at this second?
fn is_lost_in(entries: &Entries, position: usize, now: u64) -> bool
    ensures { result ≡ is_lost_in now (slice_get entries.now position) }
{
    match entries.get(position) {
        Some(request) => request.is_lost_at(now),
        None => false,
    }
}

/// May the request at this position have been sent again? Of one that is not in memory that is not
/// known.
fn may_be_again(entries: &Entries, position: usize) -> bool
    ensures { result ≡ false → was_sent_again_in (slice_get entries.now position) ≡ false }
{
    match entries.get(position) {
        Some(request) => request.was_sent_again(),
        None => true,
    }
}

/// The position before which only requests that were sent again are to send, once the request at
/// this position is sent.
pub(crate) fn sent_to(entries: &Entries, position: usize, sent: usize) -> usize
    requires there { position < length entries.now }
    requires kept { IsKeptAt entries.now position }
    ensures { result ≡ sent_to (slice_get entries.now position) position sent }
{
    let _len = entries.len();
    if entries.request(position).was_sent_again() {
        sent
    } else {
        position + 1
    }
}

/// A position is not to be sent any more. What is to send is looked through only where the position
/// may stand there.
pub(crate) fn unqueue(
    outgoing: &mut VecDeque<usize>,
    entries: &Entries,
    sent: usize,
    position: usize,
)
    requires { AreInOrder sent entries.now outgoing.old.items }
    ensures { outgoing.new.items ≡ without position outgoing.old.items }
{
    if sent <= position || may_be_again(entries, position) {
        drop_position(outgoing, position);
    }
}

/// A position is not to be sent any more.
fn drop_position(outgoing: &mut VecDeque<usize>, position: usize)
    ensures { outgoing.new.items ≡ without position outgoing.old.items }
{
    outgoing.retain(|p| !(*p == position));
}

/// What is lost at a tick at this second is not to be sent any more.
pub(crate) fn drop_lost(outgoing: &mut VecDeque<usize>, entries: &Entries, now: u64)
    ensures { outgoing.new.items ≡ without_lost now entries.now outgoing.old.items }
{
    outgoing.retain(|position| !is_lost_in(entries, *position, now));
}
