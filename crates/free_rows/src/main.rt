// Free space over blocks of 512 bytes, run: lists in either order, and whether two hold the same extents (lists.rt); plans; a tree by block on version 4
// and one by size on version 5, each built, stored at scattered numbers and walked back, whole and damaged; builds and walks that are refused. A walk's
// line says whether the levels are linked, and ends with what became of the lists and scratches. `stdout` was worked out apart from this code.
// plan_row, build_in, show_read, show and walk_in are those of trees_rows but for the kind: `show`, which both use, knows nothing of trees.
#![tactic(auto)]

ghost use Rattle.std.specs.Prelude.{◌<◌};

mod lists;

use blocks::geometry::{AgBlock, Geometry};
use blocks::kind::TreeKind;
use codec::free_extent::{EXTENT_LEN, FreeExtent, encode};
use codec::refusal::Told;
use show::images::{damage_in, part, store_each};
use show::lent::{Left, show_blocks, show_output, show_tails};
use show::lines::{either, newline, number, show_told, words};
use show::samples::geometry;
use trees::build::build;
use trees::plan::plan;
use walks::refusal::StoppedWalk;
use walks::walk::{Linking, Walked, walk_linked};

fn usual(version: u16) -> Geometry {
    geometry(version, 512, 1000)
}

fn plan_row(version: u16, kind: TreeKind, records: u64) {
    number(b"version ", version as u64);
    number(b" plan of ", records);
    match plan(usual(version), kind, records) {
        Ok(p) => {
            number(b" levels ", p.levels as u64);
            number(b" blocks ", p.total);
        }
        Err(r) => {
            show_told(Told::from(r));
        }
    }
    newline();
}

// A full leaf and one extent more, a full node over full leaves and one extent more.
fn plans() {
    plan_row(4, TreeKind::ByBlock, 62);
    plan_row(4, TreeKind::ByBlock, 63);
    plan_row(4, TreeKind::BySize, 2542);
    plan_row(4, TreeKind::BySize, 2543);
    plan_row(5, TreeKind::BySize, 57);
    plan_row(5, TreeKind::BySize, 58);
    plan_row(5, TreeKind::ByBlock, 2166);
    plan_row(5, TreeKind::ByBlock, 2167);
}

// The i-th extent by block: one to three blocks in every four.
fn extent(i: u32) -> FreeExtent
    requires { i < 130 }
{
    FreeExtent {
        startblock: 5 + i * 4,
        blockcount: 1 + i % 3,
    }
}

// Which extent is at a place of the list by size: the 44 of one block come first, then the 43 of two, then the 43 of three.
fn which_by_size(place: u32) -> u32
    requires { place < 130 }
    ensures { result < 130 }
{
    if place < 44 {
        return place * 3;
    }
    if place < 87 {
        return (place - 44) * 3 + 1;
    }
    (place - 87) * 3 + 2
}

// Which extent is at a place of the list of a kind of tree.
fn which(kind: TreeKind, place: u32) -> u32
    requires { place < 130 }
    ensures { result < 130 }
{
    match kind {
        TreeKind::BySize => which_by_size(place),
        _ => place,
    }
}

fn fill(kind: TreeKind, list: &mut [u8]) {
    for place in 0..130 {
        if let Some(bytes) = part(list, EXTENT_LEN, place) {
            encode(bytes, 0, extent(which(kind, place)));
        }
    }
}

// Where the blocks of a tree go: three leaves and the root.
fn numbers() -> [u32; 4] {
    [4u32, 0, 3, 2]
}

// A tree, stored in an image of five blocks.
fn plant(version: u16, kind: TreeKind, image: &mut [u8]) {
    let mut list = [0u8; 1040];
    let mut out = [0u8; 2048];
    let at = numbers();
    fill(kind, &mut list);
    let _ = build(usual(version), kind, &list, &at, &mut out);
    store_each(&out, 512, &at, image);
}

fn build_in(g: Geometry, kind: TreeKind, list: &[u8], at: &[u32], out: &mut [u8]) {
    show_output(b" built ", build(g, kind, list, at, out), out);
    newline();
}

// A build from so many bytes of the list of a kind, with so many block numbers, and so many bytes lent for the blocks.
fn build_row(
    name: &[u8],
    g: Geometry,
    kind: TreeKind,
    listed: TreeKind,
    long: usize,
    count: usize,
    room: usize,
) {
    let mut list = [0u8; 1040];
    let mut out = [0xEEu8; 2100];
    let at = numbers();
    fill(listed, &mut list);
    if 1040 < long || 4 < count || 2100 < room {
        return;
    }
    io::write_all(1, name);
    build_in(g, kind, &list[0..long], &at[0..count], &mut out[0..room]);
}

// A build of the whole list of a kind.
fn whole_row(name: &[u8], version: u16, kind: TreeKind) {
    build_row(name, usual(version), kind, kind, 1040, 4, 2100);
}

// The list of one kind built as another, with too few numbers and bytes.
fn listed_row(name: &[u8], version: u16, kind: TreeKind, listed: TreeKind) {
    build_row(name, usual(version), kind, listed, 1040, 3, 2047);
}

// A build by size on version 4 with less.
fn less_row(name: &[u8], long: usize, count: usize, room: usize) {
    let kind = TreeKind::BySize;
    build_row(name, usual(4), kind, kind, long, count, room);
}

fn builds() {
    whole_row(b"by block, 4", 4, TreeKind::ByBlock);
    whole_row(b"by block, 5", 5, TreeKind::ByBlock);
    whole_row(b"by size, 4", 4, TreeKind::BySize);
    whole_row(b"by size, 5", 5, TreeKind::BySize);
    listed_row(b"a map on version 4", 4, TreeKind::Rmap, TreeKind::BySize);
    listed_row(
        b"counts on version 4",
        4,
        TreeKind::Refcount,
        TreeKind::BySize,
    );
    listed_row(
        b"by size as by block",
        4,
        TreeKind::ByBlock,
        TreeKind::BySize,
    );
    listed_row(
        b"by block as by size",
        5,
        TreeKind::BySize,
        TreeKind::ByBlock,
    );
    less_row(b"1039 bytes", 1039, 3, 2047);
    less_row(b"3 numbers", 1040, 3, 2047);
    less_row(b"2047 bytes lent", 1040, 4, 2047);
}

// The header of the first leaf and its first extent; the header of the root, its keys and its pointers, which lie behind room for 41 keys on version 4.
fn show_blocks_of_four(image: &[u8]) {
    if image.len() < 2560 {
        return;
    }
    io::write_all(1, b"leaf");
    words(&image[2048..2072]);
    io::write_all(1, b"root");
    words(&image[1024..1040]);
    io::write_all(1, b"keys");
    words(&image[1040..1072]);
    io::write_all(1, b"pointers");
    words(&image[1368..1384]);
}

// The same on version 5, behind room for 38 keys.
fn show_blocks_of_five(image: &[u8]) {
    if image.len() < 2560 {
        return;
    }
    io::write_all(1, b"leaf");
    words(&image[2048..2112]);
    io::write_all(1, b"root");
    words(&image[1024..1080]);
    io::write_all(1, b"keys");
    words(&image[1080..1112]);
    io::write_all(1, b"pointers");
    words(&image[1384..1400]);
}

fn planted() {
    let mut image = [0xEEu8; 2560];
    plant(4, TreeKind::ByBlock, &mut image);
    show_blocks_of_four(&image);
    plant(5, TreeKind::BySize, &mut image);
    show_blocks_of_five(&image);
}

// Are these the extents of the list of a kind?
fn show_extents(kind: TreeKind, got: &[u8]) {
    let mut list = [0u8; 1040];
    fill(kind, &mut list);
    either(list.as_slice() == got, b" same", b" differ");
}

fn show_read(kind: TreeKind, w: Walked, left: Left) {
    if left.blocks.len() < w.visits || left.records.len() < w.bytes {
        return;
    }
    show_extents(kind, &left.records[0..w.bytes]);
    left.show_scratches();
    show_tails(&left.blocks[w.visits..], &left.records[w.bytes..]);
    io::write_all(1, b" blocks");
    show_blocks(&left.blocks[0..w.visits]);
}

fn show(answer: Result<Linking, StoppedWalk>, kind: TreeKind, left: Left) {
    match answer {
        Ok(Linking { walked, linked }) => {
            number(b" read visits ", walked.visits as u64);
            number(b" records ", walked.records as u64);
            either(linked, b" linked", b" not linked");
            show_read(kind, walked, left);
        }
        Err(StoppedWalk { refusal, visits }) => {
            show_told(Told::from(refusal));
            number(b" visits ", visits as u64);
            left.show_state();
        }
    }
    newline();
}

fn walk_in(
    g: Geometry,
    kind: TreeKind,
    image: &[u8],
    root: u32,
    levels: u32,
    stack: &mut [u32],
    scratch: &mut [u64],
    blocks: &mut [u32],
    records: &mut [u8],
) {
    let answer = walk_linked(
        g,
        kind,
        image,
        AgBlock(root),
        levels,
        stack,
        scratch,
        blocks,
        records,
    );
    show(
        answer,
        kind,
        Left {
            stack,
            scratch,
            blocks,
            records,
        },
    );
}

// A walk that is lent so many places of the stack, out of 20, and so many bytes for records, out of 1100.
fn walk_row(
    name: &[u8],
    g: Geometry,
    kind: TreeKind,
    image: &[u8],
    root: u32,
    levels: u32,
    places: usize,
    room: usize,
) {
    let mut stack = [0xEEu32; 20];
    let mut scratch = [0xEEu64; 5];
    let mut blocks = [0xEEu32; 5];
    let mut records = [0xEEu8; 1100];
    if 20 < places || 1100 < room {
        return;
    }
    io::write_all(1, name);
    walk_in(
        g,
        kind,
        image,
        root,
        levels,
        &mut stack[0..places],
        &mut scratch,
        &mut blocks,
        &mut records[0..room],
    );
}

// A tree walked from its root with so much lent.
fn read_row(name: &[u8], version: u16, kind: TreeKind, places: usize, room: usize) {
    let mut image = [0xEEu8; 2560];
    plant(version, kind, &mut image);
    walk_row(name, usual(version), kind, &image, 2, 2, places, room);
}

// From another block, over other levels.
fn from_row(name: &[u8], version: u16, kind: TreeKind, root: u32, levels: u32) {
    let mut image = [0xEEu8; 2560];
    plant(version, kind, &mut image);
    walk_row(name, usual(version), kind, &image, root, levels, 20, 1100);
}

// A tree of a version and a kind, walked as of another.
fn taken_row(name: &[u8], planted: u16, kind: TreeKind, version: u16, other: TreeKind) {
    let mut image = [0xEEu8; 2560];
    plant(planted, kind, &mut image);
    walk_row(name, usual(version), other, &image, 2, 2, 20, 1100);
}

// 12 asks for a stack of 18 places on either version.
fn walks() {
    read_row(b"by block, 4", 4, TreeKind::ByBlock, 20, 1100);
    read_row(b"by block, 4, just enough", 4, TreeKind::ByBlock, 18, 1040);
    read_row(b"by block, 4, stack of 17", 4, TreeKind::ByBlock, 17, 1040);
    read_row(b"by block, 4, 1039 bytes", 4, TreeKind::ByBlock, 18, 1039);
    read_row(b"by size, 4", 4, TreeKind::BySize, 20, 1100);
    read_row(b"by block, 5", 5, TreeKind::ByBlock, 20, 1100);
    read_row(b"by size, 5", 5, TreeKind::BySize, 20, 1100);
    read_row(b"by size, 5, just enough", 5, TreeKind::BySize, 18, 1040);
    read_row(b"by size, 5, stack of 17", 5, TreeKind::BySize, 17, 1040);
    from_row(b"by size, 5, one leaf", 5, TreeKind::BySize, 3, 1);
    from_row(b"by block, 4, root outside", 4, TreeKind::ByBlock, 5, 2);
    from_row(b"by block, 4, 1 level", 4, TreeKind::ByBlock, 2, 1);
}

fn taken() {
    let block = TreeKind::ByBlock;
    let size = TreeKind::BySize;
    taken_row(b"by block, 4, as by size", 4, block, 4, size);
    taken_row(b"by block, 4, on version 5", 4, block, 5, block);
    taken_row(b"by size, 5, on version 4", 5, size, 4, size);
    taken_row(b"by size, 5, as by block", 5, size, 5, block);
    taken_row(b"by block, 4, as map", 4, block, 4, TreeKind::Rmap);
    taken_row(b"by size, 5, as counts", 5, size, 5, TreeKind::Refcount);
}

// A walk with one byte of a block damaged, the block's check put in again on version 5 where asked.
fn damaged_row(
    name: &[u8],
    version: u16,
    kind: TreeKind,
    block: u32,
    at: usize,
    value: u8,
    again: bool,
) {
    let mut image = [0xEEu8; 2560];
    plant(version, kind, &mut image);
    damage_in(&mut image, 512, block, at, value, again);
    walk_row(name, usual(version), kind, &image, 2, 2, 20, 1100);
}

// On version 4 nothing but the magic, the level and the number of records is asked of a block.
fn damaged() {
    let block = TreeKind::ByBlock;
    let size = TreeKind::BySize;
    damaged_row(b"4, a leaf's magic", 4, block, 0, 3, 0x43, false);
    damaged_row(b"4, a leaf's level", 4, block, 0, 5, 1, false);
    damaged_row(b"4, a leaf's records", 4, block, 0, 7, 63, false);
    damaged_row(b"4, a leaf's extent", 4, block, 0, 23, 9, false);
    damaged_row(b"4, a leaf's last byte", 4, block, 0, 511, 9, false);
    damaged_row(b"4, a right link", 4, block, 0, 15, 4, false);
    damaged_row(b"4, a key of the root", 4, block, 2, 16, 9, false);
    damaged_row(b"5, a leaf's extent", 5, size, 0, 63, 9, false);
    damaged_row(b"5, a leaf's owner", 5, size, 0, 51, 4, true);
    damaged_row(b"5, a leaf's address", 5, size, 0, 23, 9, true);
    damaged_row(b"5, a leaf's sequence number", 5, size, 0, 31, 0x29, true);
    damaged_row(b"5, a leaf's records", 5, size, 0, 7, 58, true);
    damaged_row(b"5, a left link", 5, size, 3, 11, 4, true);
}

fn main() {
    lists::lists();
    plans();
    builds();
    planted();
    walks();
    taken();
    damaged();
}
