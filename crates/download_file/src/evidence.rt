//! What proves the segments that were made, from the answers in the record.

ghost use Rattle.std.specs.Prelude.{◌≡◌, ◌<◌, ◌++◌, ◌-◌, List, All, Contains, IfOk, OnOk};
ghost use Rattle.std.specs.List.{flat_map};
ghost use Rattle.share_layout.specs.Geometry.{segment_count};
ghost use Rattle.proved_parts.specs.Parts.{IsSegmentBy};
ghost use Rattle.download_segments.specs.GroupState.{GroupState, segments_in};
ghost use Rattle.download_file.specs.Answers.{IsMade};
ghost use Rattle.download_file.specs.Parts.{AreMadeAmong};
ghost use Rattle.download_file.specs.Right.{IsGroup};
ghost use Rattle.download_file.specs.Steps.{AreOfFile, AreSegmentsBy, IsMadeGroup, part_numbers};

use crate::blocks::join_blocks;
use crate::reader::Reader;
use download_segments::{Group, Handout};
use proved_parts::EvidencePart;
use request_record::requests::Requests;
use std::alloc::{AllocError, Global};

/// What proves the segments of these groups, one after another.
pub(crate) fn evidence_of(
    alloc: Global,
    requests: &Requests,
    handout: &Handout,
    readers: &[Reader],
    groups: &[Group],
) -> Result<Vec<EvidencePart>, AllocError>
    requires file { AreOfFile requests.now.entries handout.now.geometry readers.now }
    requires made { All (IsMadeGroup requests.now.entries handout.now readers.now) groups.now }
    ensures all { IfOk result (λ parts.
        part_numbers parts.items ≡ flat_map segments_in groups.now) }
    ensures by { IfOk result (λ parts. AreSegmentsBy handout.now.ueb parts.items) }
    ensures made { IfOk result (λ parts. AreMadeAmong requests.now.entries handout.now
        readers.now groups.now parts.items) }
{
    let mut parts = Vec::new(alloc);
    for group in groups {
        push_parts(alloc, requests, handout, readers, group, &mut parts)?;
    }
    Ok(parts)
}

// Adds what proves the segments of a group.
fn push_parts(
    alloc: Global,
    requests: &Requests,
    handout: &Handout,
    readers: &[Reader],
    group: &Group,
    parts: &mut Vec<EvidencePart>,
) -> Result<(), AllocError>
    requires file { AreOfFile requests.now.entries handout.now.geometry readers.now }
    requires made { IsMadeGroup requests.now.entries handout.now readers.now group.now }
    requires by { AreSegmentsBy handout.now.ueb parts.old.items }
    ensures all { OnOk result (part_numbers parts.new.items
        ≡ part_numbers parts.old.items ++ segments_in group.now) }
    ensures by { OnOk result (AreSegmentsBy handout.now.ueb parts.new.items) }
    ensures made { OnOk result ((groups : List GroupState) → Contains groups group.now
        → AreMadeAmong requests.now.entries handout.now readers.now groups parts.old.items
        → AreMadeAmong requests.now.entries handout.now readers.now groups parts.new.items) }
{
    for number in group.first()..group.end() {
        let part = part_of(alloc, requests, handout, readers, group, number)?;
        parts.push(part)?;
    }
    Ok(())
}

// What proves a segment of a group.
fn part_of(
    alloc: Global,
    requests: &Requests,
    handout: &Handout,
    readers: &[Reader],
    group: &Group,
    number: u32,
) -> Result<EvidencePart, AllocError>
    requires there { number < segment_count handout.now.geometry }
    requires group { IsGroup handout.now readers.now group.now }
    requires made { IsMade requests.now.entries handout.now readers.now group.now number }
    requires file { AreOfFile requests.now.entries handout.now.geometry readers.now }
    ensures number { IfOk result (λ part. part.number ≡ number) }
    ensures by { IfOk result (λ part.
        IsSegmentBy handout.now.ueb part.number part.segment part.path) }
    // What was made of the blocks is this segment.
    ensures segment { (m : IsMade requests.now.entries handout.now readers.now group.now number)
        → IfOk result (λ part. m.segment ≡ part.segment) }
{
    let size = handout.geometry().block_length(number);
    let joined = join_blocks(alloc, requests, readers, group.positions(), number, size)?;
    let segment = group.decode(alloc, number, &joined)?;
    let Some(part) = handout.part_of(number, segment)? else {
        unreachable!();
    };
    Ok(part)
}
