// Shared counts over blocks of 65,536 bytes, nine levels of them, every node with its 8,185 children: all but the last have nothing below them, and the last is
// the next such node. Were a call held open for each child read, there would be 65,480 of them at the last leaf.
use crate::{Asked, Memory, walk_both};
use blocks::geometry::Geometry;
use blocks::kind::TreeKind;
use show::images::{part, put_pointers};
use show::places::filled;
use show::samples::{fresh, geometry};

// A block with nothing in it, or a leaf of one record of zeros.
fn put_block(g: Geometry, image: &mut [u8], block: u32, level: u16, numrecs: u16) {
    if let Some(b) = part(image, 65536, block) {
        fresh(g, TreeKind::Refcount, block, level, numrecs, b);
    }
}

// A full node: its pointers, which begin after room for 8,185 keys, are to `last` and 8,184 times before it to `other`.
fn put_node(g: Geometry, image: &mut [u8], block: u32, level: u16, other: u32, last: u32) {
    let mut pointers = [other; 8185];
    pointers[8184] = last;
    if let Some(b) = part(image, 65536, block) {
        put_pointers(b, 56 + 8185 * 4, &pointers);
        fresh(g, TreeKind::Refcount, block, level, 8185, b);
    }
}

// Block 0 is a leaf of one record, and block 9 one of none. Block l is the full node of level l, over that of the level below it; block 9 + l has nothing
// in it.
fn plant(g: Geometry, image: &mut [u8]) {
    put_block(g, image, 0, 0, 1);
    put_block(g, image, 9, 0, 0);
    for level in 1..9u16 {
        let l = level as u32;
        put_node(g, image, l, level, 8 + l, l - 1);
        put_block(g, image, 9 + l, level, 0);
    }
}

// A walk of it, in a group of as many blocks as there are visits.
pub(crate) fn full_row(name: &[u8]) {
    let g = geometry(5, 65536, 65481);
    // 18 blocks; and a level scratch and a block list for the 65,481 visits that the walk takes
    let mut image = filled::<u8, 1179648>(0);
    let mut scratch = filled::<u64, 65481>(0xEE);
    let mut blocks = filled::<u32, 65481>(0xEE);
    let mut records = [0xEEu8; 12];
    let mut other_scratch = filled::<u64, 65481>(0xEE);
    let mut other_blocks = filled::<u32, 65481>(0xEE);
    let mut other_records = [0xEEu8; 12];
    plant(g, &mut image);
    let asked = Asked {
        g,
        kind: TreeKind::Refcount,
        root: 8,
        levels: 9,
    };
    walk_both(
        name,
        asked,
        &image,
        Memory {
            scratch: &mut scratch,
            blocks: &mut blocks,
            records: &mut records,
        },
        Memory {
            scratch: &mut other_scratch,
            blocks: &mut other_blocks,
            records: &mut other_records,
        },
    );
}
