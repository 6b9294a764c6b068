//! The plan of a download from one share.

ghost use Rattle.std.specs.Prelude.{◌≡◌, ℕ, ◌+◌, ◌-◌, ◌*◌, ◌^◌, ◌<◌, ◌≤◌, IfSome};
ghost use Rattle.merkle.specs.Tree.{node_number};
ghost use Rattle.share_layout.specs.Geometry.{segment_count};
ghost use Rattle.share_layout.specs.Layout.{offsets_of};
ghost use Rattle.download_parts.specs.Level.{first_node, end_node, level_at, level_count, row_of};
ghost use Rattle.share_layout.specs.Pieces.{block_length};
ghost use Rattle.download_parts.specs.Level.{IsAbove, group_size, leaves_below, tree_height};
ghost use Rattle.download_parts.specs.Plan.{IsAmong, IsNodePiece, IsPart, IsPlanned, block_start};
ghost use Rattle.download_parts.specs.Plan.{EndsWithBlock, data_end, data_pieces, data_offset};
ghost use Rattle.download_parts.specs.Plan.{first_piece, length_of, max_nodes, max_read, piece_at};
ghost use Rattle.download_parts.specs.Plan.{next_piece, nodes_of, nodes_offset, offset_at};
ghost use Rattle.download_parts.specs.Plan.{pieces_of};
ghost use Rattle.download_parts.specs.Plan.{offset_of, run_reads, run_size};
ghost use Rattle.download_parts.specs.Range.{IsRange};

use crate::level::Level;
use crate::part::{DataPieces, NodePiece, Nodes, Part, Read};
use merkle::{height, node_number};
use share_layout::{Geometry, Offsets};

/// The most bytes of a read.
pub const MAX_READ: u32 = 32_768;

/// The most nodes of a read.
pub const MAX_NODES: u32 = 1_024;

/// A law: these constants are the limits of the definitions. The law is the contract; the call does
/// nothing.
pub fn constants_are_the_limits()
    ensures bytes { MAX_READ ≡ max_read }
    ensures nodes { MAX_NODES ≡ max_nodes }
{}

// How many rows there are from a level to the next.
const ROWS: u32 = 7;

/// The plan for some segments of a file: which bytes of each share are read.
#[derive(Clone, Copy, PartialEq, Eq)]
pub struct Plan {
    /// The file's geometry.
    pub geometry: Geometry,
    /// The number of the first segment that is wanted.
    pub first: u32,
    /// The number behind the last.
    pub end: u32,
    pub ghost range: { IsRange geometry first end },
}

impl Plan {
    /// The plan for the segments `first` to before `end`.
    pub fn of(geometry: &Geometry, first: u32, end: u32) -> Plan
        requires some { first < end }
        requires within { end ≤ segment_count geometry.now }
        ensures geometry { result.geometry ≡ geometry.now }
        ensures first { result.first ≡ first }
        ensures end { result.end ≡ end }
    {
        let _ = geometry.size();
        Plan {
            geometry: *geometry,
            first,
            end,
        }
    }

    // The height of the trees with a leaf for each segment.
    fn height(&self) -> u32
        ensures value { result ≡ tree_height self.now.geometry }
        ensures low { result ≤ 20 }
        ensures room { segment_count self.now.geometry ≤ 2 ^ result }
    {
        height(self.geometry.segment_count())
    }

    /// How many levels of each tree are read: 0 to 3.
    pub fn level_count(&self) -> u32
        ensures value { result ≡ level_count (tree_height self.now.geometry) }
        ensures range { result ≤ 3 }
    {
        self.height().div_ceil(ROWS)
    }

    /// What is read of a level.
    pub fn level(&self, number: u32) -> Level
        requires there { number < level_count (tree_height self.now.geometry) }
        ensures value { result ≡ level_at self.now.geometry self.now.first self.now.end number }
        ensures some { result.first < result.end }
        ensures inside { result.end ≤ 2 ^ result.row }
        ensures low { result.row ≤ 20 }
    {
        let height = self.height();
        let row = height - ROWS * (self.level_count() - 1 - number);
        Level {
            row,
            first: first_node(height, row, self.first),
            end: end_node(height, row, self.end, self.geometry.segment_count()),
        }
    }

    /// How many pieces a level has.
    pub fn piece_count(&self, level: u32) -> u32
        requires there { level < level_count (tree_height self.now.geometry) }
        ensures value { result
            ≡ pieces_of (level_at self.now.geometry self.now.first self.now.end level) }
        ensures some { 0 < result }
    {
        let level = self.level(level);
        level.end.div_ceil(MAX_NODES) - level.first / MAX_NODES
    }

    /// The first piece of each tree, where there is one: a file of one segment has none.
    pub fn first_piece(&self) -> Option<NodePiece>
        ensures value { result ≡ first_piece self.now.geometry }
        ensures piece { IfSome result
            (IsNodePiece self.now.geometry self.now.first self.now.end) }
    {
        if self.level_count() > 0 {
            Some(NodePiece { level: 0, index: 0 })
        } else {
            None
        }
    }

    /// The piece that follows another, upper levels first, where there is one.
    pub fn next_piece(&self, piece: &NodePiece) -> Option<NodePiece>
        requires { IsNodePiece self.now.geometry self.now.first self.now.end piece.now }
        ensures value { result
            ≡ next_piece self.now.geometry self.now.first self.now.end piece.now }
        ensures piece { IfSome result
            (IsNodePiece self.now.geometry self.now.first self.now.end) }
    {
        let pieces = self.piece_count(piece.level);
        let levels = self.level_count();
        if piece.index + 1 < pieces {
            Some(NodePiece {
                level: piece.level,
                index: piece.index + 1,
            })
        } else if piece.level + 1 < levels {
            Some(NodePiece {
                level: piece.level + 1,
                index: 0,
            })
        } else {
            None
        }
    }

    /// The piece of a level that holds the group above a wanted segment's leaf.
    pub fn piece_above(&self, level: u32, segment: u32) -> NodePiece
        requires there { level < level_count (tree_height self.now.geometry) }
        requires from { self.now.first ≤ segment }
        requires before { segment < self.now.end }
        ensures level { result.level ≡ level }
        ensures piece { IsNodePiece self.now.geometry self.now.first self.now.end result }
        // It holds the whole group.
        ensures holds { (node : ℕ)
            → IsAbove self.now.geometry (row_of (tree_height self.now.geometry) level) segment node
            → IsAmong (nodes_of self.now.geometry self.now.first self.now.end result) node }
    {
        let found = self.level(level);
        let node = first_node(self.height(), found.row, segment);
        NodePiece {
            level,
            index: node / MAX_NODES - found.first / MAX_NODES,
        }
    }

    /// The nodes of a piece.
    pub fn nodes(&self, piece: &NodePiece) -> Nodes
        requires { IsNodePiece self.now.geometry self.now.first self.now.end piece.now }
        ensures value { result
            ≡ nodes_of self.now.geometry self.now.first self.now.end piece.now }
        ensures range { (0 < result.count) × (result.count ≤ max_nodes) }
        ensures inside { result.from + result.count ≤ 2 ^ result.row }
        ensures low { result.row ≤ 20 }
    {
        let level = self.level(piece.level);
        let cut = MAX_NODES * (level.first / MAX_NODES + piece.index);
        let from = level.first.max(cut);
        Nodes {
            row: level.row,
            from,
            count: level.end.min(cut + MAX_NODES) - from,
        }
    }

    /// How many pieces the blocks of the wanted segments have.
    pub fn data_piece_count(&self) -> u32
        ensures value { result ≡ data_pieces self.now.geometry self.now.first self.now.end }
        ensures some { 0 < result }
    {
        self.piece_at(self.data_end() - 1) + 1
    }

    /// The offset of the block of a segment in each share.
    pub fn block_start(&self, segment: u32) -> u64
        requires there { segment < segment_count self.now.geometry }
        ensures value { result ≡ block_start self.now.geometry segment }
        ensures low { result ≤ 2 ^ 40 + 68 }
    {
        let header = self.geometry.layout().header_size() as u64;
        header + u64::from(segment) * u64::from(self.geometry.block_size())
    }

    /// The pieces of the data that hold the block of a wanted segment: from the one with its first
    /// byte to the one with its last.
    pub fn block_pieces(&self, segment: u32) -> DataPieces
        requires from { self.now.first ≤ segment }
        requires before { segment < self.now.end }
        ensures first { result.first ≡ piece_at self.now.geometry self.now.first
            (block_start self.now.geometry segment) }
        ensures end { result.end ≡ piece_at self.now.geometry self.now.first
            (block_start self.now.geometry segment
            + block_length self.now.geometry segment - 1) + 1 }
        ensures some { result.first < result.end }
        ensures within { result.end ≤ data_pieces self.now.geometry self.now.first self.now.end }
    {
        let begin = self.block_start(segment);
        let last = begin + u64::from(self.geometry.block_length(segment)) - 1;
        DataPieces {
            first: self.piece_at(begin),
            end: self.piece_at(last) + 1,
        }
    }

    /// Where the block of a wanted segment begins in the first of those pieces.
    pub fn block_offset(&self, segment: u32) -> u32
        requires from { self.now.first ≤ segment }
        requires before { segment < self.now.end }
        ensures value { result ≡ offset_at self.now.geometry self.now.first
            (block_start self.now.geometry segment) }
        ensures low { result < max_read }
    {
        let begin = self.block_start(segment) - self.block_start(self.first);
        (begin % self.run_size() % u64::from(MAX_READ)) as u32
    }

    // How many bytes the blocks have that are read together: as many blocks as a read has room for,
    // or one.
    fn run_size(&self) -> u64
        ensures value { result ≡ run_size self.now.geometry }
        ensures range { (0 < result) × (result < 2 ^ 32) }
    {
        let block = u64::from(self.geometry.block_size());
        (u64::from(MAX_READ) / block).max(1) * block
    }

    // In how many reads they come.
    fn run_reads(&self) -> u64
        ensures value { result ≡ run_reads self.now.geometry }
        ensures range { (0 < result) × (result < 2 ^ 32) }
    {
        self.run_size().div_ceil(u64::from(MAX_READ))
    }

    // Where a piece of the data begins.
    fn data_offset(&self, index: u32) -> u64
        ensures value { result ≡ data_offset self.now.geometry self.now.first index }
        ensures low { result < 2 ^ 48 }
    {
        let runs = u64::from(index) / self.run_reads();
        let reads = u64::from(index) % self.run_reads();
        self.block_start(self.first) + runs * self.run_size() + u64::from(MAX_READ) * reads
    }

    // The piece of the data in which an offset lies.
    fn piece_at(&self, offset: u64) -> u32
        requires from { block_start self.now.geometry self.now.first ≤ offset }
        requires low { offset < 2 ^ 42 }
        ensures value { result ≡ piece_at self.now.geometry self.now.first offset }
        ensures low { result < 2 ^ 28 }
    {
        let begin = offset - self.block_start(self.first);
        let runs = begin / self.run_size();
        let reads = begin % self.run_size() / u64::from(MAX_READ);
        (runs * self.run_reads() + reads) as u32
    }

    // The offset behind the last byte of the wanted segments' blocks.
    fn data_end(&self) -> u64
        ensures value { result ≡ data_end self.now.geometry self.now.end }
        ensures low { result ≤ 2 ^ 40 + 68 }
    {
        let header = self.geometry.layout().header_size() as u64;
        let blocks = u64::from(self.end) * u64::from(self.geometry.block_size());
        header + blocks.min(self.geometry.share_data_size())
    }

    /// The bytes of a part.
    pub fn read(&self, part: &Part) -> Read
        requires { IsPart self.now.geometry self.now.first self.now.end part.now }
        ensures offset { result.offset
            ≡ offset_of self.now.geometry self.now.first self.now.end part.now }
        ensures length { result.length
            ≡ length_of self.now.geometry self.now.first self.now.end part.now }
        ensures planned { IsPlanned self.now.geometry self.now.first self.now.end result.offset
            result.length }
        ensures range { (0 < result.length) × (result.length ≤ max_read) }
        // A read of the data that comes to the end of a block ends with the end of one.
        ensures ends { (i : ℕ) → part.now ≡ Part.Data i → EndsWithBlock self.now.geometry
            self.now.first self.now.end result.offset result.length }
    {
        let offsets = Offsets::of(&self.geometry);
        match part {
            Part::ShareHashes => Read {
                offset: offsets.share_hashes,
                length: self.geometry.hashes_size(),
            },
            Part::BlockTree(piece) => self.read_nodes(offsets.block_tree, piece),
            Part::CiphertextTree(piece) => self.read_nodes(offsets.ciphertext_tree, piece),
            Part::Data(index) => self.read_data(*index),
        }
    }

    // The bytes of some nodes, in the section that begins at this offset.
    fn read_nodes(&self, section: u64, piece: &NodePiece) -> Read
        requires piece { IsNodePiece self.now.geometry self.now.first self.now.end piece.now }
        requires low { section < 2 ^ 41 }
        ensures offset { result.offset ≡ nodes_offset section
            (nodes_of self.now.geometry self.now.first self.now.end piece.now) }
        ensures length { result.length
            ≡ 32 * (nodes_of self.now.geometry self.now.first self.now.end piece.now).count }
        ensures range { (0 < result.length) × (result.length ≤ max_read) }
    {
        let nodes = self.nodes(piece);
        Read {
            offset: section + 32 * u64::from(node_number(nodes.row, nodes.from)),
            length: 32 * nodes.count,
        }
    }

    // The bytes of a piece of the data, which ends where the next begins, or with the blocks.
    fn read_data(&self, index: u32) -> Read
        requires { index < data_pieces self.now.geometry self.now.first self.now.end }
        ensures offset { result.offset ≡ data_offset self.now.geometry self.now.first index }
        ensures length { result.length
            ≡ length_of self.now.geometry self.now.first self.now.end (Part.Data index) }
        ensures range { (0 < result.length) × (result.length ≤ max_read) }
    {
        let offset = self.data_offset(index);
        let end = self.data_offset(index + 1).min(self.data_end());
        Read {
            offset,
            length: (end - offset) as u32,
        }
    }
}

// How many leaves a node of a row has below it.
fn leaves_below(height: u32, row: u32) -> u32
    requires low { height ≤ 20 }
    ensures value { result ≡ leaves_below height row }
    ensures range { (0 < result) × (result ≤ 2 ^ 20) }
{
    1 << height.saturating_sub(row)
}

// How many nodes a group of a row has.
fn group_size(row: u32) -> u32
    ensures value { result ≡ group_size row }
    ensures range { (0 < result) × (result ≤ 128) }
{
    1 << row.min(ROWS)
}

// The first node of a row that is read.
#[tactic(auto, unfolding(crate::specs::Level::first_node))]
fn first_node(height: u32, row: u32, first: u32) -> u32
    requires low { height ≤ 20 }
    ensures { result ≡ first_node height row first }
{
    let group = group_size(row);
    first / leaves_below(height, row) / group * group
}

// The offset behind the last.
#[tactic(auto, unfolding(crate::specs::Level::end_node))]
fn end_node(height: u32, row: u32, end: u32, count: u32) -> u32
    requires low { height ≤ 20 }
    requires few { end ≤ 2 ^ 20 }
    ensures { result ≡ end_node height row end count }
{
    let leaves = leaves_below(height, row);
    let group = group_size(row);
    let groups = end.div_ceil(leaves).div_ceil(group);
    (groups * group).min(count.div_ceil(leaves))
}
