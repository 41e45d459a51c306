// Trees of the reverse map over blocks of 512 bytes, run: plans; a tree of three levels built, stored at scattered numbers and walked back, whole
// and with one link damaged; builds and walks refused by each question. A walk's line says whether the levels are linked, and ends with what
// became of the lists and scratches. Lookups in that tree are in lookups.rt. `stdout` was worked out apart from this code.
#![tactic(auto)]

ghost use Rattle.std.specs.Prelude.{◌<◌};

mod lookups;

use blocks::geometry::{AgBlock, Geometry};
use blocks::kind::TreeKind;
use codec::refusal::Told;
use codec::rmap::{RMAP_LEN, Rmap, encode};
use show::images::{damage_in, part, put_pointers, store, store_each};
use show::lent::{Left, show_blocks, show_output, show_tails};
use show::lines::{either, newline, number, show_told, words};
use show::samples::{at_lsn, fresh, geometry};
use trees::build::build;
use trees::plan::plan;
use walks::refusal::StoppedWalk;
use walks::walk::{Linking, Walked, walk_linked};

fn usual() -> Geometry {
    geometry(5, 512, 1000)
}

fn plan_row(records: u64) {
    number(b"plan of ", records);
    match plan(usual(), TreeKind::Rmap, records) {
        Ok(p) => {
            number(b" levels ", p.levels as u64);
            number(b" blocks ", p.total);
        }
        Err(r) => {
            show_told(Told::from(r));
        }
    }
    newline();
}

// The records of the tree: two blocks in every three, but the eighth reaches past them all, and the last one's owner is reserved.
fn record(i: u32) -> Rmap
    requires { i < 200 }
{
    Rmap {
        startblock: 10 + i * 3,
        blockcount: if i == 7 { 1000 } else { 2 },
        owner: if i == 199 {
            0xFFFF_FFFF_FFFF_FFF8
        } else {
            100 + (i as u64)
        },
        offset: i as u64,
    }
}

fn fill(list: &mut [u8]) {
    for i in 0..200 {
        if let Some(bytes) = part(list, RMAP_LEN, i) {
            encode(bytes, 0, record(i));
        }
    }
}

// Where the blocks of the tree go: eleven leaves, two nodes and the root.
fn numbers() -> [u32; 14] {
    [3u32, 10, 17, 4, 11, 18, 5, 12, 19, 6, 13, 0, 7, 14]
}

// The tree, stored in an image.
fn plant(image: &mut [u8]) {
    let mut list = [0u8; 4800];
    let mut out = [0u8; 7168];
    let at = numbers();
    fill(&mut list);
    let _ = build(usual(), TreeKind::Rmap, &list, &at, &mut out);
    store_each(&out, 512, &at, image);
}

fn build_in(g: Geometry, list: &[u8], at: &[u32], out: &mut [u8]) {
    show_output(b" built ", build(g, TreeKind::Rmap, list, at, out), out);
    newline();
}

// A build from so many bytes of the list, with so many block numbers, and so many bytes lent for the blocks.
fn build_row(name: &[u8], g: Geometry, long: usize, count: usize, room: usize) {
    let mut list = [0u8; 4800];
    let mut out = [0xEEu8; 7200];
    let at = numbers();
    fill(&mut list);
    if 4800 < long || 14 < count || 7200 < room {
        return;
    }
    io::write_all(1, name);
    build_in(g, &list[0..long], &at[0..count], &mut out[0..room]);
}

fn builds() {
    build_row(b"build", usual(), 4800, 14, 7200);
    build_row(b"block size 256", geometry(5, 256, 1000), 4799, 13, 7167);
    build_row(b"version 4", geometry(4, 512, 1000), 4799, 13, 7167);
    build_row(b"4799 bytes", usual(), 4799, 13, 7167);
    build_row(b"13 numbers", usual(), 4800, 13, 7167);
    build_row(b"7167 bytes lent", usual(), 4800, 14, 7167);
    build_row(b"190 records", usual(), 4560, 14, 7168);
}

// The keys and the pointers of the root.
fn show_root(image: &[u8]) {
    if image.len() < 7680 {
        return;
    }
    io::write_all(1, b"root keys");
    words(&image[7224..7304]);
    io::write_all(1, b"root pointers");
    words(&image[7624..7640]);
}

fn root() {
    let mut image = [0xEEu8; 10240];
    plant(&mut image);
    show_root(&image);
}

// Are these the records that the tree was built from?
fn show_records(got: &[u8]) {
    let mut list = [0u8; 4800];
    fill(&mut list);
    either(list.as_slice() == got, b" same", b" differ");
}

fn show_read(w: Walked, left: Left) {
    if left.blocks.len() < w.visits || left.records.len() < w.bytes {
        return;
    }
    show_records(&left.records[0..w.bytes]);
    left.show_scratches();
    show_tails(&left.blocks[w.visits..], &left.records[w.bytes..]);
    io::write_all(1, b"\nblocks");
    show_blocks(&left.blocks[0..w.visits]);
}

fn show(answer: Result<Linking, StoppedWalk>, left: Left) {
    match answer {
        Ok(Linking { walked, linked }) => {
            number(b" read visits ", walked.visits as u64);
            number(b" records ", walked.records as u64);
            either(linked, b" linked", b" not linked");
            show_read(walked, left);
        }
        Err(StoppedWalk { refusal, visits }) => {
            show_told(Told::from(refusal));
            number(b" visits ", visits as u64);
            left.show_state();
        }
    }
    newline();
}

fn walk_in(
    g: Geometry,
    image: &[u8],
    root: u32,
    levels: u32,
    stack: &mut [u32],
    scratch: &mut [u64],
    blocks: &mut [u32],
    records: &mut [u8],
) {
    let answer = walk_linked(
        g,
        TreeKind::Rmap,
        image,
        AgBlock(root),
        levels,
        stack,
        scratch,
        blocks,
        records,
    );
    show(
        answer,
        Left {
            stack,
            scratch,
            blocks,
            records,
        },
    );
}

// The places and bytes that a walk is lent, out of 80, 120, 120 and 5000.
#[derive(Clone, Copy)]
struct Lengths {
    stack: usize,
    scratch: usize,
    blocks: usize,
    records: usize,
}

fn lent(stack: usize, scratch: usize, blocks: usize, records: usize) -> Lengths {
    Lengths {
        stack,
        scratch,
        blocks,
        records,
    }
}

fn plenty() -> Lengths {
    lent(80, 120, 120, 5000)
}

fn walk_row(name: &[u8], g: Geometry, image: &[u8], root: u32, levels: u32, l: Lengths) {
    let mut stack = [0xEEu32; 80];
    let mut scratch = [0xEEu64; 120];
    let mut blocks = [0xEEu32; 120];
    let mut records = [0xEEu8; 5000];
    if 80 < l.stack || 120 < l.scratch || 120 < l.blocks || 5000 < l.records {
        return;
    }
    io::write_all(1, name);
    walk_in(
        g,
        image,
        root,
        levels,
        &mut stack[0..l.stack],
        &mut scratch[0..l.scratch],
        &mut blocks[0..l.blocks],
        &mut records[0..l.records],
    );
}

// A walk of the tree over the first bytes of the image.
fn tree_row(name: &[u8], g: Geometry, long: usize, root: u32, levels: u32, l: Lengths) {
    let mut image = [0xEEu8; 10240];
    plant(&mut image);
    if 10240 < long {
        return;
    }
    walk_row(name, g, &image[0..long], root, levels, l);
}

// A walk of the tree with one byte of a block damaged, the block's check put in again or not.
fn damaged_row(name: &[u8], block: u32, at: usize, value: u8, again: bool) {
    let mut image = [0xEEu8; 10240];
    plant(&mut image);
    damage_in(&mut image, 512, block, at, value, again);
    walk_row(name, usual(), &image, 14, 3, plenty());
}

// A walk from a copy of the root at another number.
fn copied_row(name: &[u8], block: u32) {
    let mut image = [0xEEu8; 10240];
    let mut other = [0xEEu8; 10240];
    plant(&mut image);
    plant(&mut other);
    store(&other[14 * 512..15 * 512], &mut image, block);
    walk_row(name, usual(), &image, block, 3, plenty());
}

// A walk of a tree of one leaf, of two records.
fn single_row(name: &[u8]) {
    let mut image = [0xEEu8; 10240];
    let mut list = [0u8; 4800];
    let mut out = [0u8; 512];
    let at = numbers();
    fill(&mut list);
    let _ = build(usual(), TreeKind::Rmap, &list[0..48], &at[0..1], &mut out);
    store(&out, &mut image, 3);
    walk_row(name, usual(), &image, 3, 1, plenty());
}

// A block of an image, with ten times the same pointer.
fn fresh_in(g: Geometry, image: &mut [u8], block: u32, level: u16, numrecs: u16, pointer: u32) {
    if let Some(b) = part(image, 512, block) {
        put_pointers(b, 456, &[pointer; 10]);
        fresh(g, TreeKind::Rmap, block, level, numrecs, b);
    }
}

// A walk of 1 + 10 + 100 visits over three blocks: the root points ten times to a node, and that ten times to a leaf of one record.
fn folded_row(name: &[u8], agblocks: u32) {
    let g = geometry(5, 512, agblocks);
    let mut image = [0u8; 1536];
    fresh_in(g, &mut image, 0, 0, 1, 0);
    fresh_in(g, &mut image, 1, 1, 10, 0);
    fresh_in(g, &mut image, 2, 2, 10, 1);
    walk_row(name, g, &image, 2, 3, plenty());
}

fn wide_in(g: Geometry, image: &mut [u8], block: u32, level: u16, numrecs: u16) {
    if let Some(b) = part(image, 65536, block) {
        fresh(g, TreeKind::Rmap, block, level, numrecs, b);
    }
}

// Blocks of 65,536 bytes, a node of which has room for 1,488 children: a root that points twice to a leaf of one record, with so many places of the stack.
fn wide_row(name: &[u8], places: usize) {
    let g = geometry(5, 65536, 1000);
    let mut image = [0u8; 131072];
    wide_in(g, &mut image, 0, 0, 1);
    wide_in(g, &mut image, 1, 1, 2);
    walk_row(name, g, &image, 1, 2, lent(places, 3, 3, 48));
}

// Over any number of levels 12 takes 18 places of the stack, and all that are lent are zero afterwards.
fn stacks() {
    let few = lent(17, 14, 14, 4800);
    let enough = lent(18, 14, 14, 4800);
    tree_row(
        b"stack of 19",
        usual(),
        10240,
        14,
        3,
        lent(19, 14, 14, 4800),
    );
    tree_row(b"1 level, stack of 18", usual(), 10240, 13, 1, enough);
    tree_row(b"1 level, stack of 17", usual(), 10240, 13, 1, few);
    tree_row(b"9 levels, stack of 18", usual(), 10240, 14, 9, enough);
    tree_row(b"9 levels, stack of 17", usual(), 10240, 14, 9, few);
    wide_row(b"65,536 bytes, stack of 18", 18);
    wide_row(b"65,536 bytes, stack of 17", 17);
}

fn read() {
    tree_row(b"tree", usual(), 10240, 14, 3, plenty());
    tree_row(
        b"tree, just enough lent",
        usual(),
        10240,
        14,
        3,
        lent(18, 14, 14, 4800),
    );
    tree_row(
        b"tree, one number higher",
        at_lsn(usual(), 0x2122232425262729),
        10240,
        14,
        3,
        plenty(),
    );
    tree_row(b"left half", usual(), 10240, 0, 2, plenty());
    tree_row(b"one leaf", usual(), 10240, 13, 1, plenty());
    damaged_row(b"a leaf met twice", 0, 463, 3, true);
    single_row(b"a single leaf");
}

// Each row one link: the tree reads the same, and is not linked.
fn links() {
    damaged_row(b"a middle leaf's right link", 11, 15, 19, true);
    damaged_row(b"a middle leaf's left link", 11, 11, 3, true);
    damaged_row(b"the first leaf's left link", 3, 11, 19, true);
    damaged_row(b"the last leaf's right link", 13, 15, 3, true);
    damaged_row(b"a node's right link", 0, 15, 14, true);
    damaged_row(b"the root's left link", 14, 11, 0, true);
}

fn refused_at_once() {
    let small = geometry(5, 256, 1000);
    tree_row(b"block size 256", small, 10240, 14, 0, lent(0, 0, 14, 0));
    tree_row(b"0 levels", usual(), 10240, 14, 0, lent(0, 0, 14, 0));
    tree_row(b"10 levels", usual(), 10240, 14, 10, plenty());
    tree_row(
        b"stack of 17",
        usual(),
        10240,
        20,
        3,
        lent(17, 14, 14, 4800),
    );
    tree_row(
        b"level scratch of 13",
        usual(),
        10240,
        20,
        3,
        lent(18, 13, 14, 4800),
    );
}

fn refused_by_lengths() {
    let four = geometry(4, 512, 1000);
    tree_row(b"root outside", usual(), 10240, 20, 3, plenty());
    tree_row(b"image a byte short", usual(), 10239, 14, 3, plenty());
    tree_row(
        b"version 4, root outside",
        four,
        10240,
        20,
        3,
        lent(18, 14, 14, 4800),
    );
    tree_row(
        b"version 4, root inside",
        four,
        10240,
        14,
        3,
        lent(18, 14, 14, 4800),
    );
    tree_row(
        b"version 4, stack of 17",
        four,
        10240,
        14,
        3,
        lent(17, 14, 14, 4800),
    );
    tree_row(
        b"block list of 13",
        usual(),
        10240,
        14,
        3,
        lent(18, 14, 13, 4800),
    );
    tree_row(
        b"record list of 4799",
        usual(),
        10240,
        14,
        3,
        lent(18, 14, 14, 4799),
    );
    tree_row(
        b"no block list",
        usual(),
        10240,
        14,
        3,
        lent(18, 14, 0, 4800),
    );
}

fn refused_by_blocks() {
    damaged_row(b"leaf's magic", 3, 0, 0x53, false);
    damaged_row(b"leaf's body", 10, 511, 1, false);
    damaged_row(b"node's uuid", 0, 47, 0, true);
    damaged_row(b"node's owner", 7, 51, 4, true);
    damaged_row(b"leaf's address", 17, 23, 1, true);
    damaged_row(b"leaf's sequence number", 11, 31, 0x29, true);
    damaged_row(b"its upper half", 4, 27, 0x25, true);
    damaged_row(b"leaf's level", 19, 5, 1, true);
    damaged_row(b"leaf's records", 13, 7, 20, true);
    damaged_row(b"node's pointer", 7, 472, 1, true);
    damaged_row(b"node's pointer to a node", 7, 459, 0, true);
    damaged_row(b"node's pointer to no block", 7, 459, 1, true);
    copied_row(b"root's copy", 15);
    tree_row(
        b"one number lower",
        at_lsn(usual(), 0x2122232425262727),
        10240,
        14,
        3,
        plenty(),
    );
    tree_row(b"2 levels", usual(), 10240, 14, 2, plenty());
    tree_row(b"4 levels", usual(), 10240, 14, 4, lent(18, 14, 14, 4800));
}

fn refused_by_visits() {
    folded_row(b"folded, agblocks 0", 0);
    folded_row(b"folded, agblocks 64", 64);
    folded_row(b"folded, agblocks 110", 110);
    folded_row(b"folded, agblocks 111", 111);
}

fn main() {
    plan_row(200);
    plan_row(1900000000);
    plan_row(1900000001);
    builds();
    root();
    read();
    links();
    refused_at_once();
    refused_by_lengths();
    refused_by_blocks();
    refused_by_visits();
    stacks();
    lookups::lookups();
}
