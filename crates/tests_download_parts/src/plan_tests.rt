// How many reads a plan makes, and of how many bytes.

use download_parts::{MAX_READ, NodePiece, Part, Plan, Read};
use share_layout::Geometry;
use std::test::Fail;

// How many reads there are, and of how many bytes.
pub(crate) type Count = (u32, u64);

// The size of a file in bytes, at 3 of 10, and its greatest segment; the first segment that is
// wanted and the one behind the last; the reads of a tree, and those of the blocks. The numbers are
// from a program of its own, in Python.
pub(crate) static COUNTS: [((u64, u32), (u32, u32), Count, Count); 8] = [
    ((1 << 30, 131_072), (4_095, 4_096), (2, 6_144), (2, 43_691)),
    (
        (1 << 30, 131_072),
        (4_095, 4_104),
        (3, 10_240),
        (18, 393_219),
    ),
    (
        (1 << 30, 131_072),
        (0, 8_192),
        (9, 264_192),
        (16_384, 357_913_942),
    ),
    ((1 << 20, 131_072), (3, 4), (1, 256), (2, 43_691)),
    ((1 << 20, 131_072), (0, 8), (1, 256), (16, 349_526)),
    // Of 25 blocks of 1,366 bytes 23 share a read.
    ((100_000, 4_096), (0, 25), (1, 800), (2, 33_334)),
    (
        (1 << 40, 1 << 20),
        (524_287, 524_288),
        (3, 10_240),
        (11, 349_526),
    ),
    ((56, 131_072), (0, 1), (0, 0), (1, 19)),
];

fn counted((reads, bytes): Count, read: Read) -> Count {
    (
        reads.saturating_add(1),
        bytes.saturating_add(u64::from(read.length)),
    )
}

fn tree_count(plan: &Plan) -> Count {
    let mut count = (0, 0);
    for level in 0..plan.level_count() {
        for index in 0..plan.piece_count(level) {
            let piece = NodePiece { level, index };
            let part = Part::BlockTree(piece);
            count = counted(count, plan.read(&part));
        }
    }
    count
}

fn data_count(plan: &Plan) -> Count {
    let mut count = (0, 0);
    for index in 0..plan.data_piece_count() {
        let part = Part::Data(index);
        count = counted(count, plan.read(&part));
    }
    count
}

#[test]
fn plans_make_so_many_reads(rt: HostRuntime) -> Result<(), Fail> {
    for &((size, max), (first, end), tree, data) in &COUNTS {
        let geometry = Geometry::of(size, 3, 10, max)?;
        assert!(rt; first < end && end <= geometry.segment_count(), "at {size}");
        let plan = Plan::of(&geometry, first, end);
        assert!(rt; tree_count(&plan) == tree, "at {size} {first} {end}");
        assert!(rt; data_count(&plan) == data, "at {size} {first} {end}");
        let hashes = plan.read(&Part::ShareHashes);
        assert!(rt; hashes.length == 170, "at {size}");
    }
    Ok(())
}

// The blocks of 300 bytes at 3 of 10, in segments of 102: the second segment alone.
#[test]
fn parts_have_their_offsets(rt: HostRuntime) -> Result<(), Fail> {
    let geometry = Geometry::of(300, 3, 10, 100)?;
    assert!(rt; geometry.segment_count() == 3);
    let plan = Plan::of(&geometry, 1, 2);
    assert!(rt; plan.level_count() == 1 && plan.data_piece_count() == 1);
    let data = plan.read(&Part::Data(0));
    assert!(rt;
        data == Read {
            offset: 70,
            length: 34
        }
    );
    assert!(rt; plan.block_start(1) == 70);
    let pieces = plan.block_pieces(1);
    assert!(rt; (pieces.first, pieces.end) == (0, 1));
    let hashes = plan.read(&Part::ShareHashes);
    assert!(rt;
        hashes
            == Read {
                offset: 808,
                length: 170
            }
    );
    // Three leaves, of which the fourth is padding.
    let piece = plan.piece_above(0, 1);
    let nodes = plan.nodes(&piece);
    assert!(rt; (nodes.row, nodes.from, nodes.count) == (2, 0, 3));
    let tree = plan.read(&Part::BlockTree(piece));
    assert!(rt;
        tree == Read {
            offset: 584 + 96,
            length: 96
        }
    );
    let tree = plan.read(&Part::CiphertextTree(piece));
    assert!(rt;
        tree == Read {
            offset: 360 + 96,
            length: 96
        }
    );
    Ok(())
}

#[test]
fn pieces_follow_one_another(rt: HostRuntime) -> Result<(), Fail> {
    let geometry = Geometry::of(1 << 30, 3, 10, 131_072)?;
    assert!(rt; geometry.segment_count() == 8_192 && MAX_READ == 32_768);
    let plan = Plan::of(&geometry, 0, 8_192);
    let mut found = 0;
    if let Some(first) = plan.first_piece() {
        assert!(rt; first == NodePiece { level: 0, index: 0 });
        if let Some(second) = plan.next_piece(&first) {
            assert!(rt; second == NodePiece { level: 1, index: 0 });
            if let Some(third) = plan.next_piece(&second) {
                assert!(rt; third == NodePiece { level: 1, index: 1 });
                found = 3;
            }
        }
    }
    assert!(rt; found == 3);
    let last = plan.piece_above(1, 8_191);
    assert!(rt; last == NodePiece { level: 1, index: 7 });
    assert!(rt; plan.next_piece(&last).is_none());
    Ok(())
}
