// The kinds of tree, by their lengths.
#![tactic(auto, unfolding(crate::specs::Tree::header_len))]

ghost use Rattle.std.specs.Prelude.{◌≡◌};
ghost use Rattle.blocks.specs.Tree.{by_version, header_len, has_tree, magic_of, overlapping, record_len, keys_len, entry_len, place_len, capacity};

use crate::offsets::{V4_HEADER_LEN, V5_HEADER_LEN};
use codec::free_extent::EXTENT_LEN;
use codec::refcount::REFCOUNT_LEN;
use codec::rmap::RMAP_LEN;

// A key of the reverse map; an entry has two of them, low and high.
pub const RMAP_KEY_LEN: usize = 20;

// A key of the counts: the start of a record.
const REFCOUNT_KEY_LEN: usize = 4;

// A pointer of a node: a block number of the group.
pub const PTR_LEN: usize = 4;

#[derive(Clone, Copy, Debug, PartialEq, Eq)]
pub enum TreeKind {
    Rmap,
    Refcount,
    // free space by block
    ByBlock,
    // free space by size
    BySize,
}

// What a version has of two numbers, that of 4 and that of 5. `header_len` chooses among lengths, of another type: one generic choice is no plainer.
fn by_version(version: u16, four: u32, five: u32) -> u32
    ensures { result ≡ by_version version four five }
{
    if version == 5 { five } else { four }
}

impl TreeKind {
    // Question 3: has a version such a tree?
    pub fn is_in(self, version: u16) -> bool
        ensures { result ≡ has_tree self version }
    {
        match self {
            TreeKind::Rmap | TreeKind::Refcount => version == 5,
            TreeKind::ByBlock | TreeKind::BySize => true,
        }
    }

    // The magic number of its blocks in a version that has such a tree.
    pub(crate) fn magic(self, version: u16) -> u32
        ensures { result ≡ magic_of self version }
    {
        match self {
            TreeKind::Rmap => 0x524D4233,
            TreeKind::Refcount => 0x52334643,
            TreeKind::ByBlock => by_version(version, 0x41425442, 0x41423342),
            TreeKind::BySize => by_version(version, 0x41425443, 0x41423343),
        }
    }

    // May records of the tree overlap? Then an entry of a node has a low and a high key, else one.
    pub fn is_overlapping(self) -> bool
        ensures { result ≡ overlapping self }
    {
        matches!(self, TreeKind::Rmap)
    }

    // The length of a record.
    pub fn record_len(self) -> usize
        ensures { result ≡ record_len self }
    {
        match self {
            TreeKind::Rmap => RMAP_LEN,
            TreeKind::Refcount => REFCOUNT_LEN,
            TreeKind::ByBlock | TreeKind::BySize => EXTENT_LEN,
        }
    }

    // The length of the keys of one entry of a node.
    pub fn keys_len(self) -> usize
        ensures { result ≡ keys_len self }
    {
        match self {
            TreeKind::Rmap => RMAP_KEY_LEN * 2,
            TreeKind::Refcount => REFCOUNT_KEY_LEN,
            TreeKind::ByBlock | TreeKind::BySize => EXTENT_LEN,
        }
    }

    // The length of an entry of a node: its keys and a pointer.
    pub fn entry_len(self) -> usize
        ensures { result ≡ entry_len self }
    {
        self.keys_len() + PTR_LEN
    }

    // What one place of a block at a level takes: a record in a leaf, an entry in a node.
    pub(crate) fn place_len(self, level: u16) -> usize
        ensures { result ≡ place_len self level }
    {
        if level == 0 {
            self.record_len()
        } else {
            self.entry_len()
        }
    }
}

// The length of a block's header.
pub fn header_len(version: u16) -> usize
    ensures { result ≡ header_len version }
{
    if version == 5 {
        V5_HEADER_LEN
    } else {
        V4_HEADER_LEN
    }
}

// How many records or entries a block of `len` bytes holds at a level.
pub fn block_capacity(kind: TreeKind, version: u16, level: u16, len: usize) -> usize
    ensures { result ≡ capacity kind version level len }
{
    len.saturating_sub(header_len(version)) / kind.place_len(level)
}
