// Lookups in the tree, run: answers and visits; keys that are wrong; lookups refused by each question. A line ends with what became of the stack, and
// of the places for answers.
use crate::{fresh_in, plant, usual, wide_in};
use blocks::geometry::{AgBlock, Geometry};
use codec::refusal::Told;
use lookup::lookup::lookup;
use show::images::damage_in;
use show::lines::{either, newline, number, show_told};
use show::places;
use show::samples::{at_lsn, geometry};

fn show_answers(answers: &[u64]) {
    for n in answers {
        number(b" ", *n);
    }
}

fn show_found(asked: usize, stack: &[u32], answers: &[u64]) {
    if answers.len() < asked {
        return;
    }
    either(
        places::throughout(stack, 0),
        b" stack zero",
        b" stack dirty",
    );
    either(
        places::throughout(&answers[asked..], 0xEE),
        b" tail kept:",
        b" tail written:",
    );
    show_answers(&answers[0..asked]);
}

// Is every place of the stack and of the answers `value`?
fn throughout(stack: &[u32], answers: &[u64], value: u8) -> bool {
    places::throughout(stack, value as u32) && places::throughout(answers, value as u64)
}

fn show_state(stack: &[u32], answers: &[u64]) {
    if throughout(stack, answers, 0) {
        io::write_all(1, b" zero");
        return;
    }
    either(throughout(stack, answers, 0xEE), b" kept", b" mixed");
}

fn lookup_in(
    g: Geometry,
    image: &[u8],
    root: u32,
    levels: u32,
    asked: &[u32],
    stack: &mut [u32],
    answers: &mut [u64],
) {
    match lookup(g, image, AgBlock(root), levels, asked, stack, answers) {
        Ok(found) => {
            number(b" found visits ", found.visits as u64);
            show_found(asked.len(), stack, answers);
        }
        Err(stopped) => {
            show_told(Told::from(stopped.refusal));
            number(b" visits ", stopped.visits as u64);
            show_state(stack, answers);
        }
    }
    newline();
}

// A lookup with so many places of the stack, out of 20, and for answers, out of 16.
fn lent_row(
    name: &[u8],
    g: Geometry,
    image: &[u8],
    root: u32,
    levels: u32,
    asked: &[u32],
    places: usize,
    room: usize,
) {
    let mut stack = [0xEEu32; 20];
    let mut answers = [0xEEu64; 16];
    if 20 < places || 16 < room {
        return;
    }
    io::write_all(1, b"lookup, ");
    io::write_all(1, name);
    lookup_in(
        g,
        image,
        root,
        levels,
        asked,
        &mut stack[0..places],
        &mut answers[0..room],
    );
}

// A lookup in the tree, with so many places.
fn tree_row(
    name: &[u8],
    g: Geometry,
    root: u32,
    levels: u32,
    asked: &[u32],
    places: usize,
    room: usize,
) {
    let mut image = [0xEEu8; 10240];
    plant(&mut image);
    lent_row(name, g, &image, root, levels, asked, places, room);
}

fn row(name: &[u8], asked: &[u32]) {
    tree_row(name, usual(), 14, 3, asked, 20, 16);
}

fn from_the_root() {
    let many = [
        0u32, 9, 10, 12, 31, 33, 500, 607, 608, 1030, 1031, 4294967295,
    ];
    row(b"twelve numbers", &many);
    row(b"before the first", &many[1..2]);
    row(b"the furthest block", &many[9..10]);
    row(b"past the furthest", &many[10..12]);
    row(b"no numbers", &many[0..0]);
    tree_row(
        b"twelve numbers, one sequence number higher",
        at_lsn(usual(), 0x2122232425262729),
        14,
        3,
        &many,
        18,
        16,
    );
}

// Two numbers looked up in the right half alone, where the record that reaches past them all is not.
fn half_row(name: &[u8], a: u32, b: u32) {
    let asked = [a, b];
    tree_row(name, usual(), 7, 2, &asked, 18, 16);
}

// The second leaf of the half is that of 394 to 446.
fn at_a_leaf() {
    half_row(b"a leaf's low start", 339, 394);
    half_row(b"a leaf's high start", 446, 609);
    half_row(b"gaps in a leaf", 396, 399);
    half_row(b"gaps between leaves", 393, 447);
}

fn in_and_between() {
    let all = [339u32, 340, 342, 393, 394, 446, 447, 556, 608, 609];
    tree_row(b"before, in, between, after", usual(), 7, 2, &all, 18, 16);
    tree_row(b"one leaf", usual(), 13, 1, &all, 18, 10);
}

// The last record of a leaf, its start and its length made so large that it ends past every number.
fn past_every_number() {
    let mut image = [0xEEu8; 10240];
    let asked = [607u32, 4278190686, 4278190687, 4294967295];
    plant(&mut image);
    damage_in(&mut image, 512, 13, 464, 0xFF, true);
    damage_in(&mut image, 512, 13, 468, 0xFF, true);
    lent_row(
        b"a record past every number",
        usual(),
        &image,
        13,
        1,
        &asked,
        18,
        4,
    );
}

// Two numbers looked up in the tree as it was built.
fn pair_row(name: &[u8], a: u32, b: u32) {
    let asked = [a, b];
    row(name, &asked);
}

// And with one byte of a block damaged, the block's check put in again or not.
fn damaged_row(name: &[u8], block: u32, at: usize, value: u8, again: bool, a: u32, b: u32) {
    let mut image = [0xEEu8; 10240];
    let asked = [a, b];
    plant(&mut image);
    damage_in(&mut image, 512, block, at, value, again);
    lent_row(name, usual(), &image, 14, 3, &asked, 18, 16);
}

// The second leaf's pointer is made the first leaf's: its keys stay.
fn met_twice() {
    pair_row(b"a leaf met once", 10, 99);
    damaged_row(b"a leaf met twice", 0, 463, 3, true, 10, 99);
    damaged_row(b"its second pointer skipped", 0, 463, 3, true, 10, 200);
}

// The keys decide, not the records under them.
fn wrong_keys() {
    pair_row(b"keys as built", 343, 520);
    // the root's first high start, 1030, is made 518, and then 6, which is below its low start
    damaged_row(b"a high start lowered", 14, 78, 2, true, 519, 520);
    damaged_row(b"a high start lowered, met", 14, 78, 2, true, 518, 520);
    damaged_row(b"a high start below the low", 14, 78, 0, true, 6, 10);
    // its second low start, 340, is made 352
    damaged_row(b"a low start raised", 14, 99, 0x60, true, 343, 351);
    damaged_row(b"a low start raised, met", 14, 99, 0x60, true, 343, 352);
}

// Two numbers, with so many places. In each row a later question fails too.
fn at_once_row(name: &[u8], g: Geometry, levels: u32, a: u32, b: u32, places: usize, room: usize) {
    let asked = [a, b];
    tree_row(name, g, 20, levels, &asked, places, room);
}

fn refused_at_once() {
    at_once_row(b"block size 256", geometry(5, 256, 1000), 0, 6, 5, 17, 1);
    at_once_row(b"0 levels", usual(), 0, 6, 5, 17, 1);
    at_once_row(b"10 levels", usual(), 10, 6, 5, 17, 1);
    at_once_row(b"stack of 17", usual(), 3, 6, 5, 17, 1);
    at_once_row(b"descending numbers", usual(), 3, 6, 5, 18, 2);
    at_once_row(b"equal numbers", usual(), 3, 5, 5, 18, 2);
    at_once_row(b"one place", usual(), 3, 5, 6, 18, 1);
}

fn refused_at_the_root() {
    let four = geometry(4, 512, 1000);
    let two = [10u32, 607];
    tree_row(b"root outside", usual(), 20, 3, &two, 18, 2);
    tree_row(b"version 4", four, 14, 3, &two, 18, 2);
    tree_row(b"version 4, stack of 17", four, 14, 3, &two, 17, 2);
    tree_row(b"2 levels", usual(), 14, 2, &two, 18, 2);
}

// Two numbers looked up in an image cut a byte short: its last block is the leaf of 448 to 500.
fn short_row(name: &[u8], a: u32, b: u32) {
    let mut image = [0xEEu8; 10240];
    let asked = [a, b];
    plant(&mut image);
    lent_row(name, usual(), &image[0..10239], 14, 3, &asked, 18, 16);
}

// The last leaf is that of 556 to 608.
fn refused_by_blocks() {
    short_row(b"a leaf outside skipped", 447, 502);
    short_row(b"a leaf outside", 500, 502);
    damaged_row(b"a bad leaf skipped", 13, 0, 0x53, false, 10, 555);
    damaged_row(b"leaf's magic", 13, 0, 0x53, false, 10, 556);
    damaged_row(b"leaf's body", 13, 511, 1, false, 10, 556);
    damaged_row(b"node's uuid", 7, 47, 0, true, 10, 556);
    damaged_row(b"node's owner", 7, 51, 4, true, 10, 556);
    damaged_row(b"leaf's address", 13, 23, 1, true, 10, 556);
    damaged_row(b"leaf's sequence number", 13, 31, 0x29, true, 10, 556);
    damaged_row(b"leaf's level", 13, 5, 1, true, 10, 556);
    damaged_row(b"leaf's records", 13, 7, 20, true, 10, 556);
}

// The tree of 1 + 10 + 100 visits over three blocks, all keys 0: its leaf's record lies over block 0.
fn folded_row(name: &[u8], agblocks: u32, a: u32, b: u32) {
    let g = geometry(5, 512, agblocks);
    let mut image = [0u8; 1536];
    let asked = [a, b];
    fresh_in(g, &mut image, 0, 0, 1, 0);
    fresh_in(g, &mut image, 1, 1, 10, 0);
    fresh_in(g, &mut image, 2, 2, 10, 1);
    damage_in(&mut image, 512, 0, 63, 1, true);
    lent_row(name, g, &image, 2, 3, &asked, 18, 3);
}

fn refused_by_visits() {
    folded_row(b"folded, agblocks 0", 0, 0, 1);
    folded_row(b"folded, agblocks 110", 110, 0, 1);
    folded_row(b"folded, agblocks 111", 111, 0, 1);
    folded_row(b"folded, all skipped", 0, 1, 2);
}

// Blocks of 65,536 bytes: a root that points twice to a leaf, whose record lies over no block, all keys 0.
fn wide_row(name: &[u8], places: usize) {
    let g = geometry(5, 65536, 1000);
    let mut image = [0u8; 131072];
    let asked = [0u32, 1];
    wide_in(g, &mut image, 0, 0, 1);
    wide_in(g, &mut image, 1, 1, 2);
    lent_row(name, g, &image, 1, 2, &asked, places, 2);
}

fn stacks() {
    let two = [10u32, 607];
    tree_row(b"9 levels, stack of 18", usual(), 14, 9, &two, 18, 2);
    tree_row(b"9 levels, stack of 17", usual(), 14, 9, &two, 17, 2);
    wide_row(b"65,536 bytes, stack of 18", 18);
    wide_row(b"65,536 bytes, stack of 17", 17);
}

pub(crate) fn lookups() {
    from_the_root();
    at_a_leaf();
    in_and_between();
    past_every_number();
    met_twice();
    wrong_keys();
    refused_at_once();
    refused_at_the_root();
    refused_by_blocks();
    refused_by_visits();
    stacks();
}
