// What a supply is asked for.

ghost use Rattle.download_supply.specs.Asking.{IsWithin};

use crate::plan_tests::{COUNTS, Count};
use download_parts::{Part, Plan};
use download_supply::{Supply, Wanted};
use share_layout::Geometry;
use std::test::Fail;

// How many parts of each section are asked, and of how many bytes.
#[derive(Clone, Copy)]
struct Asked {
    hashes: Count,
    block_tree: Count,
    ciphertext_tree: Count,
    data: Count,
}

const NOTHING: Asked = Asked {
    hashes: (0, 0),
    block_tree: (0, 0),
    ciphertext_tree: (0, 0),
    data: (0, 0),
};

fn more((parts, bytes): Count, wanted: &Wanted) -> Count {
    (
        parts.saturating_add(1),
        bytes.saturating_add(u64::from(wanted.read.length)),
    )
}

fn counted(asked: &mut Asked, parts: &[Wanted]) {
    for wanted in parts {
        match wanted.part {
            Part::ShareHashes => asked.hashes = more(asked.hashes, wanted),
            Part::BlockTree(_) => asked.block_tree = more(asked.block_tree, wanted),
            Part::CiphertextTree(_) => asked.ciphertext_tree = more(asked.ciphertext_tree, wanted),
            Part::Data(_) => asked.data = more(asked.data, wanted),
        }
    }
}

#[test]
fn supplies_are_asked_for_their_plan_once(rt: HostRuntime) -> Result<(), Fail> {
    for &((size, max), (first, end), tree, data) in &COUNTS {
        let geometry = Geometry::of(size, 3, 10, max)?;
        assert!(rt; first < end && end <= geometry.segment_count(), "at {size}");
        let plan = Plan::of(&geometry, first, end);
        let mut supply = Supply::new(rt.alloc(), &plan, first);
        let mut asked = NOTHING;
        for last in first..end {
            counted(&mut asked, &supply.wanted(rt.alloc(), last)?);
            counted(&mut asked, &supply.wanted_ciphertext(rt.alloc(), last)?);
        }
        assert!(rt; asked.hashes == (1, 170), "at {size}");
        assert!(rt; asked.block_tree == tree, "at {size}");
        assert!(rt; asked.ciphertext_tree == tree, "at {size}");
        assert!(rt; asked.data == data, "at {size}");
        assert!(rt; supply.wanted(rt.alloc(), first)?.is_empty());
        assert!(rt; supply.wanted(rt.alloc(), end)?.is_empty());
        assert!(rt; supply.wanted_ciphertext(rt.alloc(), end)?.is_empty());
    }
    Ok(())
}

// Two segments, of 131,073 bytes and of one: blocks of 43,691 bytes and of one.
#[test]
fn a_later_supply_begins_with_its_own_block(rt: HostRuntime) -> Result<(), Fail> {
    let geometry = Geometry::of(131_074, 3, 10, 131_072)?;
    assert!(rt; geometry.segment_count() == 2);
    let plan = Plan::of(&geometry, 0, 2);
    assert!(rt; begins_at_the_front(&Supply::new(rt.alloc(), &plan, 0)));
    let mut later = Supply::new(rt.alloc(), &plan, 1);
    assert!(rt; later.block_offset(1) == 0);
    assert!(rt; later.wanted(rt.alloc(), 0)?.is_empty());
    assert!(rt; are_for_the_last_block(&later.wanted(rt.alloc(), 1)?));
    Ok(())
}

// Whether both blocks begin at the front of what is read, and the second is not ready.
fn begins_at_the_front(supply: &Supply) -> bool
    requires first { IsWithin supply.now 0 }
    requires second { IsWithin supply.now 1 }
{
    supply.block_offset(0) == 0 && supply.block_offset(1) == 0 && !supply.is_ready(1)
}

// Whether these are the share hashes, two nodes and the one byte of block 1.
fn are_for_the_last_block(wanted: &[Wanted]) -> bool {
    wanted.len() == 3
        && wanted[0].part == Part::ShareHashes
        && wanted[0].read.length == 170
        && wanted[1].read.length == 64
        && wanted[2].part == Part::Data(0)
        && wanted[2].read.offset == 43_727
        && wanted[2].read.length == 1
}
