// The textbook walk, run: trees read, and refused by each question that it asks; and a tree of nine levels whose nodes are full. Each walk is made over a
// stack of 18 places too, on the same image with as much lent: a line ends with whether that came to the same, answer and lent memory. `stdout` was worked
// out apart from this code.
#![tactic(auto)]

mod full;

use blocks::geometry::{AgBlock, Geometry};
use blocks::kind::TreeKind;
use book::textbook::walk_textbook;
use codec::refusal::Told;
use show::images::{damage_in, part, put_pointers};
use show::lent::{Left, show_blocks, show_tails};
use show::lines::{either, newline, number, show_told};
use show::places::throughout;
use show::samples::{fresh, geometry};
use walks::refusal::StoppedWalk;
use walks::walk::{Walked, walk};

// ---- two walks of one image

// What a walk is lent.
#[derive(Drop)]
pub(crate) struct Memory<'a> {
    pub(crate) scratch: &'a mut [u64],
    pub(crate) blocks: &'a mut [u32],
    pub(crate) records: &'a mut [u8],
}

// Do both hold one value throughout?
fn both(a: &[u64], b: &[u64], value: u64) -> bool {
    throughout(a, value) && throughout(b, value)
}

// Do two walks leave the same? A walk leaves its scratch zero, or as it was lent.
fn same_left(a: Left, b: Left) -> bool {
    (both(a.scratch, b.scratch, 0) || both(a.scratch, b.scratch, 0xEE))
        && a.blocks == b.blocks
        && a.records == b.records
}

// ---- a row

fn show_read(w: Walked, l: Left) {
    if l.blocks.len() < w.visits || l.records.len() < w.bytes {
        return;
    }
    either(
        throughout(l.scratch, 0),
        b" scratch zero",
        b" scratch dirty",
    );
    show_tails(&l.blocks[w.visits..], &l.records[w.bytes..]);
}

fn show(walked: Result<Walked, StoppedWalk>, l: Left) {
    match walked {
        Ok(w) => {
            number(b" read visits ", w.visits as u64);
            number(b" records ", w.records as u64);
            show_read(w, l);
        }
        Err(s) => {
            show_told(Told::from(s.refusal));
            number(b" visits ", s.visits as u64);
            l.show_state();
        }
    }
}

// The blocks that a finished walk gave.
fn show_list(walked: Result<Walked, StoppedWalk>, blocks: &[u32]) {
    if let Ok(w) = walked
        && w.visits <= blocks.len()
    {
        io::write_all(1, b"blocks");
        show_blocks(&blocks[0..w.visits]);
        newline();
    }
}

// What is walked: a tree of a kind, from a root over so many levels.
#[derive(Clone, Copy)]
pub(crate) struct Asked {
    pub(crate) g: Geometry,
    pub(crate) kind: TreeKind,
    pub(crate) root: u32,
    pub(crate) levels: u32,
}

// Did the walk over a stack come to the same, and leave the same?
fn show_other(same_answer: bool, same_memory: bool) {
    if same_answer {
        either(
            same_memory,
            b", over a stack the same",
            b", over a stack other lists",
        );
    } else {
        io::write_all(1, b", over a stack another answer");
    }
    newline();
}

// Both walks, lent the same; that over a stack has 18 places of it. A short block list is shown.
pub(crate) fn walk_both(name: &[u8], asked: Asked, image: &[u8], memory: Memory, other: Memory) {
    let Asked {
        g,
        kind,
        root,
        levels,
    } = asked;
    let Memory {
        scratch,
        blocks,
        records,
    } = memory;
    let root = AgBlock(root);
    let walked = walk_textbook(g, kind, image, root, levels, scratch, blocks, records);
    let left = Left {
        stack: &[],
        scratch,
        blocks,
        records,
    };
    let Memory {
        scratch,
        blocks,
        records,
    } = other;
    let mut stack = [0xEEu32; 18];
    let again = walk(
        g, kind, image, root, levels, &mut stack, scratch, blocks, records,
    );
    let again_left = Left {
        stack: &[],
        scratch,
        blocks,
        records,
    };
    io::write_all(1, name);
    show(walked, left);
    show_other(walked == again, same_left(left, again_left));
    if left.blocks.len() < 20 {
        show_list(walked, left.blocks);
    }
}

// The places and bytes that a walk is lent, out of 122, 122 and 2,400.
#[derive(Clone, Copy)]
struct Lengths {
    scratch: usize,
    blocks: usize,
    records: usize,
}

fn lent(scratch: usize, blocks: usize, records: usize) -> Lengths {
    Lengths {
        scratch,
        blocks,
        records,
    }
}

fn plenty() -> Lengths {
    lent(122, 122, 2400)
}

fn walk_row(name: &[u8], asked: Asked, image: &[u8], l: Lengths) {
    let mut scratch = [0xEEu64; 122];
    let mut blocks = [0xEEu32; 122];
    let mut records = [0xEEu8; 2400];
    let mut other_scratch = [0xEEu64; 122];
    let mut other_blocks = [0xEEu32; 122];
    let mut other_records = [0xEEu8; 2400];
    if 122 < l.scratch || 122 < l.blocks || 2400 < l.records {
        return;
    }
    walk_both(
        name,
        asked,
        image,
        Memory {
            scratch: &mut scratch[0..l.scratch],
            blocks: &mut blocks[0..l.blocks],
            records: &mut records[0..l.records],
        },
        Memory {
            scratch: &mut other_scratch[0..l.scratch],
            blocks: &mut other_blocks[0..l.blocks],
            records: &mut other_records[0..l.records],
        },
    );
}

// ---- a tree of five blocks of 512 bytes

// A node of the reverse map with two pointers.
fn put_node(g: Geometry, image: &mut [u8], block: u32, level: u16, left: u32, right: u32) {
    if let Some(b) = part(image, 512, block) {
        put_pointers(b, 456, &[left, right]);
        fresh(g, TreeKind::Rmap, block, level, 2, b);
    }
}

// A leaf with one record of zeros.
fn put_leaf(g: Geometry, image: &mut [u8], block: u32) {
    if let Some(b) = part(image, 512, block) {
        fresh(g, TreeKind::Rmap, block, 0, 1, b);
    }
}

// The root is block 4; its children are blocks 3 and 1, of which the first has the leaves 0 and 2, the second the leaf 2 twice.
fn plant(g: Geometry, image: &mut [u8]) {
    put_leaf(g, image, 0);
    put_leaf(g, image, 2);
    put_node(g, image, 3, 1, 0, 2);
    put_node(g, image, 1, 1, 2, 2);
    put_node(g, image, 4, 2, 3, 1);
}

fn usual() -> Geometry {
    geometry(5, 512, 1000)
}

fn rmap_from(g: Geometry, root: u32, levels: u32) -> Asked {
    Asked {
        g,
        kind: TreeKind::Rmap,
        root,
        levels,
    }
}

// A walk of that tree over the first bytes of the image, in another geometry too.
fn tree_row(name: &[u8], g: Geometry, long: usize, root: u32, levels: u32, l: Lengths) {
    let mut image = [0u8; 2560];
    plant(usual(), &mut image);
    if 2560 < long {
        return;
    }
    walk_row(name, rmap_from(g, root, levels), &image[0..long], l);
}

// A walk of it with one byte of a block damaged, the block's check put in again or not.
fn damaged_row(name: &[u8], block: u32, at: usize, value: u8, again: bool) {
    let mut image = [0u8; 2560];
    plant(usual(), &mut image);
    damage_in(&mut image, 512, block, at, value, again);
    walk_row(name, rmap_from(usual(), 4, 3), &image, lent(7, 7, 96));
}

fn put_count(g: Geometry, image: &mut [u8], block: u32, level: u16, numrecs: u16) {
    if let Some(b) = part(image, 1024, block) {
        fresh(g, TreeKind::Refcount, block, level, numrecs, b);
    }
}

// A walk of 122 visits over two blocks of the shared counts, of 1,024 bytes each: a full node, all of whose 121 pointers are to block 0, a leaf of one record.
fn folded_row(name: &[u8], agblocks: u32) {
    let g = geometry(5, 1024, agblocks);
    let mut image = [0u8; 2048];
    put_count(g, &mut image, 0, 0, 1);
    put_count(g, &mut image, 1, 1, 121);
    let asked = Asked {
        g,
        kind: TreeKind::Refcount,
        root: 1,
        levels: 2,
    };
    walk_row(name, asked, &image, plenty());
}

fn read() {
    tree_row(b"tree", usual(), 2560, 4, 3, plenty());
    tree_row(
        b"tree, just enough lent",
        usual(),
        2560,
        4,
        3,
        lent(7, 7, 96),
    );
    tree_row(b"left half", usual(), 2560, 3, 2, lent(7, 7, 96));
    tree_row(b"one leaf", usual(), 2560, 2, 1, lent(1, 1, 24));
}

fn refused_at_once() {
    let small = geometry(5, 256, 1000);
    tree_row(b"block size 256", small, 2560, 4, 0, lent(0, 7, 0));
    tree_row(b"0 levels", usual(), 2560, 4, 0, lent(0, 7, 0));
    tree_row(b"10 levels", usual(), 2560, 4, 10, plenty());
    tree_row(b"level scratch of 6", usual(), 2560, 5, 3, lent(6, 7, 96));
}

fn refused_by_lengths() {
    let four = geometry(4, 512, 1000);
    tree_row(b"root outside", usual(), 2560, 5, 3, lent(7, 7, 96));
    tree_row(b"image a byte short", usual(), 2559, 4, 3, lent(7, 7, 96));
    tree_row(b"version 4, root outside", four, 2560, 5, 3, lent(7, 7, 96));
    tree_row(b"version 4, root inside", four, 2560, 4, 3, lent(7, 7, 96));
    tree_row(b"block list of 6", usual(), 2560, 4, 3, lent(7, 6, 96));
    tree_row(b"record list of 95", usual(), 2560, 4, 3, lent(7, 7, 95));
    tree_row(b"no block list", usual(), 2560, 4, 3, lent(0, 0, 96));
}

fn refused_by_blocks() {
    damaged_row(b"second leaf's magic", 2, 0, 0x53, false);
    damaged_row(b"second leaf's body", 2, 511, 1, false);
    damaged_row(b"second node's uuid", 1, 47, 0, true);
    damaged_row(b"second node's owner", 1, 51, 4, true);
    damaged_row(b"second leaf's address", 2, 23, 1, true);
    damaged_row(b"second leaf's sequence number", 2, 31, 0x29, true);
    damaged_row(b"second leaf's level", 2, 5, 1, true);
    damaged_row(b"second leaf's records", 2, 7, 20, true);
    damaged_row(b"last pointer outside", 1, 460, 1, true);
    damaged_row(b"last pointer to a node", 1, 463, 3, true);
    tree_row(b"2 levels", usual(), 2560, 4, 2, lent(7, 7, 96));
    tree_row(b"4 levels", usual(), 2560, 4, 4, lent(7, 7, 96));
}

fn refused_by_visits() {
    folded_row(b"folded, agblocks 0", 0);
    folded_row(b"folded, agblocks 64", 64);
    folded_row(b"folded, agblocks 121", 121);
    folded_row(b"folded, agblocks 122", 122);
}

fn main() {
    read();
    refused_at_once();
    refused_by_lengths();
    refused_by_blocks();
    refused_by_visits();
    full::full_row(b"nine levels of full nodes");
}
