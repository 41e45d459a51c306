// Blocks that pass the check, and blocks refused by each of questions 1 to 10 and 30: each is stamped, then damaged. A line has the answer's number
// and, where there are two numbers, what was expected and what was found. `stdout` was worked out apart from this code.
#![tactic(auto)]

ghost use Rattle.std.specs.Prelude.{◌≤◌, length};
ghost use Rattle.blocks.specs.Offsets.{v5_header_len};

use blocks::check::{BlockRefusal, Header, check_block};
use blocks::geometry::{AgBlock, Geometry};
use blocks::kind::TreeKind;
use blocks::offsets::V5_HEADER_LEN;
use codec::endian::be64;
use codec::refusal::Told;
use show::lines::{newline, number, show_told};
use show::samples::{at_lsn, between, damage, fresh, geometry};

fn show_good(h: Header) {
    number(b" good level ", h.level as u64);
    number(b" records ", h.numrecs as u64);
    number(b" body ", h.body as u64);
    number(b" capacity ", h.maxrecs as u64);
    number(b" left ", h.leftsib.0 as u64);
    number(b" right ", h.rightsib.0 as u64);
}

fn show(name: &[u8], answer: Result<Header, BlockRefusal>) {
    io::write_all(1, name);
    match answer {
        Ok(h) => show_good(h),
        Err(r) => {
            show_told(Told::from(r));
        }
    }
    newline();
}

// The group 3 of a volume with blocks of 512 bytes.
fn group(version: u16) -> Geometry {
    geometry(version, 512, 1000)
}

// Another geometry, with a buffer of no bytes: 1, or 2 where the geometry is good.
fn show_geometry(name: &[u8], version: u16, blocksize: u32, agno: u32, agblocks: u32) {
    let g = Geometry {
        version,
        blocksize,
        agblocks,
        agno,
        meta_uuid: [0u8; 16],
        last_lsn: 0,
    };
    let b = [0u8; 1];
    show(name, check_block(g, TreeKind::Rmap, AgBlock(0), 0, &b[..0]));
}

// A block of `kind`, number 7 of its group, stamped with a level and a number of records, and checked as it is.
fn show_fresh(name: &[u8], version: u16, kind: TreeKind, level: u16, numrecs: u16) {
    let g = group(version);
    let mut b = [0u8; 512];
    fresh(g, kind, 7, level, numrecs, &mut b);
    show(name, check_block(g, kind, AgBlock(7), level, &b));
}

// A node, number 7 of its group, with 3 entries, damaged at one byte, its check put in again or not.
fn show_hurt(name: &[u8], version: u16, kind: TreeKind, at: usize, value: u8, again: bool) {
    let g = group(version);
    let mut b = [0u8; 512];
    fresh(g, kind, 7, 1, 3, &mut b);
    damage(&mut b, at, value, again);
    show(name, check_block(g, kind, AgBlock(7), 1, &b));
}

// Such a node of the reverse map.
fn show_damaged(name: &[u8], at: usize, value: u8, again: bool) {
    show_hurt(name, 5, TreeKind::Rmap, at, value, again);
}

// Such a node, undamaged, looked for as another block or at another level.
fn show_sought(name: &[u8], version: u16, kind: TreeKind, block: u32, level: u16) {
    let g = group(version);
    let mut b = [0u8; 512];
    fresh(g, kind, 7, 1, 3, &mut b);
    show(name, check_block(g, kind, AgBlock(block), level, &b));
}

// Such a node of a version and a kind, taken for one of another.
fn show_taken(name: &[u8], stamped: u16, kind: TreeKind, version: u16, other: TreeKind) {
    let mut b = [0u8; 512];
    fresh(group(stamped), kind, 7, 1, 3, &mut b);
    show(name, check_block(group(version), other, AgBlock(7), 1, &b));
}

// A leaf with no records, of all the bytes of `b`.
fn show_small(name: &[u8], version: u16, kind: TreeKind, b: &mut [u8]) {
    let g = group(version);
    fresh(g, kind, 7, 0, 0, b);
    show(name, check_block(g, kind, AgBlock(7), 0, b));
}

// Such a node of a version and a kind, looked for as another block or at another level where the log has come to another sequence number.
fn show_later(name: &[u8], version: u16, kind: TreeKind, last: u64, block: u32, level: u16) {
    let g = group(version);
    let mut b = [0u8; 512];
    fresh(g, kind, 7, 1, 3, &mut b);
    show(
        name,
        check_block(at_lsn(g, last), kind, AgBlock(block), level, &b),
    );
}

// The header of a fresh block by block on version 4 with siblings, and what stands behind it, eight bytes at a time.
fn show_header_of_four() {
    let mut b = [0x5Au8; 512];
    between(
        group(4),
        TreeKind::ByBlock,
        0x01020304,
        0x0506,
        0x0708,
        0x090A0B0C,
        0x0D0E0F10,
        &mut b,
    );
    io::write_all(1, b"header, 4\n");
    words(&b);
}

// The header of a fresh block with siblings, eight bytes at a time.
fn show_header() {
    let g = group(5);
    let mut b = [0u8; 512];
    between(
        g,
        TreeKind::Refcount,
        0x01020304,
        0x0506,
        0x0708,
        0x090A0B0C,
        0x0D0E0F10,
        &mut b,
    );
    io::write_all(1, b"header\n");
    words(&b);
}

// As many bytes as a header has, eight at a time.
fn words(b: &[u8])
    requires { v5_header_len ≤ length b.now }
{
    for eight in b[..V5_HEADER_LEN].chunks_exact(8) {
        io::print_hex(1, be64(eight, 0), 16);
        newline();
    }
}

fn geometries() {
    show_geometry(b"version 3", 3, 4096, 0, 0);
    show_geometry(b"version 4", 4, 4096, 0, 0);
    show_geometry(b"version 6", 6, 4096, 0, 0);
    show_geometry(b"size 256", 5, 256, 0, 0);
    show_geometry(b"size 512", 5, 512, 0, 0);
    show_geometry(b"size 4095", 5, 4095, 0, 0);
    show_geometry(b"size 65536", 5, 65536, 0, 0);
    show_geometry(b"size 131072", 5, 131072, 0, 0);
    show_geometry(b"last address", 5, 65536, 131070, 2147483648);
    show_geometry(b"past the last", 5, 65536, 131070, 2147483649);
    show_geometry(b"greatest", 5, 512, 4294967295, 4294967295);
}

fn accepted() {
    show_fresh(b"map leaf", 5, TreeKind::Rmap, 0, 19);
    show_fresh(b"map leaf too full", 5, TreeKind::Rmap, 0, 20);
    show_fresh(b"map node", 5, TreeKind::Rmap, 1, 10);
    show_fresh(b"map node too full", 5, TreeKind::Rmap, 1, 11);
    show_fresh(b"counts leaf", 5, TreeKind::Refcount, 0, 38);
    show_fresh(b"counts leaf too full", 5, TreeKind::Refcount, 0, 39);
    show_fresh(b"counts node", 5, TreeKind::Refcount, 65535, 57);
    show_fresh(b"counts node too full", 5, TreeKind::Refcount, 65535, 58);
    show_fresh(b"map on version 4", 4, TreeKind::Rmap, 0, 1);
    show_fresh(b"counts on version 4", 4, TreeKind::Refcount, 0, 1);
}

fn short() {
    let mut b = [0u8; 55];
    show_small(b"55 bytes", 5, TreeKind::Refcount, &mut b);
    let mut b = [0u8; 56];
    show_small(b"56 bytes", 5, TreeKind::Refcount, &mut b);
    let mut b = [0u8; 60];
    show_small(b"60 bytes", 5, TreeKind::Refcount, &mut b);
    let mut b = [0u8; 15];
    show_small(b"15 bytes on version 4", 4, TreeKind::Refcount, &mut b);
    let mut b = [0u8; 16];
    show_small(b"16 bytes on version 4", 4, TreeKind::Refcount, &mut b);
    let mut b = [0u8; 15];
    show_small(b"15 bytes by block", 4, TreeKind::ByBlock, &mut b);
    let mut b = [0u8; 24];
    show_small(b"24 bytes by block", 4, TreeKind::ByBlock, &mut b);
}

fn damaged() {
    show_damaged(b"magic", 0, 0x53, false);
    show_damaged(b"magic, sealed", 3, 0x34, true);
    show_damaged(b"body", 511, 1, false);
    show_damaged(b"body, sealed", 511, 1, true);
    show_damaged(b"stored check", 52, 0, false);
    show_damaged(b"uuid", 32, 0, true);
    show_damaged(b"uuid's last byte", 47, 0, true);
    show_damaged(b"owner", 51, 4, true);
    show_damaged(b"address", 16, 1, true);
    show_damaged(b"level", 4, 1, true);
    show_damaged(b"records", 7, 11, true);
    show_damaged(b"left sibling", 11, 5, true);
    show_damaged(b"right sibling", 12, 0, true);
    show_damaged(b"level, not sealed", 4, 1, false);
    show_taken(b"as counts", 5, TreeKind::Rmap, 5, TreeKind::Refcount);
    show_sought(b"as block 8", 5, TreeKind::Rmap, 8, 1);
    show_sought(b"as block 8 and leaf", 5, TreeKind::Rmap, 8, 0);
    show_sought(b"as leaf", 5, TreeKind::Rmap, 7, 0);
}

fn free_space() {
    show_fresh(b"by-block leaf, 4", 4, TreeKind::ByBlock, 0, 62);
    show_fresh(b"by-block leaf, 4, too full", 4, TreeKind::ByBlock, 0, 63);
    show_fresh(b"by-block node, 4", 4, TreeKind::ByBlock, 1, 41);
    show_fresh(b"by-block node, 4, too full", 4, TreeKind::ByBlock, 1, 42);
    show_fresh(b"by-block leaf, 5", 5, TreeKind::ByBlock, 0, 57);
    show_fresh(b"by-block leaf, 5, too full", 5, TreeKind::ByBlock, 0, 58);
    show_fresh(b"by-size leaf, 4", 4, TreeKind::BySize, 0, 62);
    show_fresh(b"by-size node, 5", 5, TreeKind::BySize, 1, 38);
    show_fresh(b"by-size node, 5, too full", 5, TreeKind::BySize, 1, 39);
}

fn free_space_taken() {
    let block = TreeKind::ByBlock;
    let size = TreeKind::BySize;
    show_taken(b"by size as by block, 4", 4, size, 4, block);
    show_taken(b"by block as by size, 5", 5, block, 5, size);
    show_taken(b"by block of 4 on 5", 4, block, 5, block);
    show_taken(b"by size of 5 on 4", 5, size, 4, size);
    show_taken(b"by block as map, 4", 4, block, 4, TreeKind::Rmap);
    show_taken(b"by block as counts, 5", 5, block, 5, TreeKind::Refcount);
    show_sought(b"by block as block 8, 4", 4, block, 8, 1);
    show_sought(b"by block as block 8, 5", 5, block, 8, 1);
    show_sought(b"by size as leaf, 4", 4, size, 7, 0);
}

fn free_space_damaged() {
    show_hurt(b"by-block magic, 4", 4, TreeKind::ByBlock, 3, 0x43, false);
    show_hurt(b"by-block body, 4", 4, TreeKind::ByBlock, 511, 1, false);
    show_hurt(b"by-block byte 52, 4", 4, TreeKind::ByBlock, 52, 1, false);
    show_hurt(b"by-block level, 4", 4, TreeKind::ByBlock, 4, 1, false);
    show_hurt(b"by-block records, 4", 4, TreeKind::ByBlock, 7, 42, false);
    show_hurt(b"by-block left, 4", 4, TreeKind::ByBlock, 11, 5, false);
    show_hurt(b"by-size body, 5", 5, TreeKind::BySize, 511, 1, false);
    show_hurt(b"by-size uuid, 5", 5, TreeKind::BySize, 32, 0, true);
    show_hurt(b"by-size owner, 5", 5, TreeKind::BySize, 51, 4, true);
    show_hurt(b"by-size address, 5", 5, TreeKind::BySize, 16, 1, true);
    show_hurt(b"by-size level, 5", 5, TreeKind::BySize, 4, 1, true);
    show_hurt(b"by-size records, 5", 5, TreeKind::BySize, 7, 39, true);
}

// Such a node of the reverse map, where it stands.
fn show_under(name: &[u8], last: u64) {
    show_later(name, 5, TreeKind::Rmap, last, 7, 1);
}

// The node has the number 0x2122232425262728.
fn under_other_numbers() {
    show_under(b"its own number", 0x2122232425262728);
    show_under(b"one higher", 0x2122232425262729);
    show_under(b"one lower", 0x2122232425262727);
    show_under(b"no number", 0);
    show_under(b"the highest", 0xFFFFFFFFFFFFFFFF);
    show_under(b"upper half lower", 0x21222323FFFFFFFF);
    show_under(b"lower half lower", 0x2122232500000000);
    show_under(b"from 2^63 on", 0x8000000000000000);
    let lower = 0x2122232425262727;
    show_later(b"one lower, counts", 5, TreeKind::Refcount, lower, 7, 1);
    show_later(b"one lower, by block", 5, TreeKind::ByBlock, lower, 7, 1);
    show_later(b"one lower, by size", 5, TreeKind::BySize, lower, 7, 1);
    show_later(b"one lower, as block 8", 5, TreeKind::Rmap, lower, 8, 1);
    show_later(b"one lower, as leaf", 5, TreeKind::Rmap, lower, 7, 0);
    show_later(b"no number, 4", 4, TreeKind::ByBlock, 0, 7, 1);
}

fn other_numbers() {
    show_damaged(b"sequence number", 31, 0x29, true);
    show_damaged(b"sequence number's first byte", 24, 0xFF, true);
    show_damaged(b"sequence number, lower", 24, 0x20, true);
    show_damaged(b"sequence number, not sealed", 31, 0x29, false);
}

fn main() {
    geometries();
    accepted();
    short();
    damaged();
    under_other_numbers();
    other_numbers();
    free_space();
    free_space_taken();
    free_space_damaged();
    show_header();
    show_header_of_four();
}
