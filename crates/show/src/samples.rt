// The blocks that the test programs make and damage.
ghost use Rattle.std.specs.Prelude.{◌≡◌, set};
ghost use Rattle.blocks.specs.Geometry.{null_ag_block, with_lsn};
ghost use Rattle.show.specs.Samples.{sample_geometry, fresh_between, sealed, damaged};

use blocks::geometry::{AgBlock, Geometry, NULL_AGBLOCK};
use blocks::kind::{TreeKind, header_len};
use blocks::offsets;
use blocks::stamp::stamp;
use codec::crc::crc32c_with_zeroed_crc;
use codec::endian::put_le32;

// The group 3 of a volume whose UUID is the bytes 16 to 31, and the last record of whose log has a number with no two bytes alike.
pub fn geometry(version: u16, blocksize: u32, agblocks: u32) -> Geometry
    ensures { result ≡ sample_geometry version blocksize agblocks }
{
    Geometry {
        version,
        blocksize,
        agblocks,
        agno: 3,
        meta_uuid: *b"\x10\x11\x12\x13\x14\x15\x16\x17\x18\x19\x1A\x1B\x1C\x1D\x1E\x1F",
        last_lsn: 0x2122232425262728,
    }
}

// The same group, where the volume's log has come to another sequence number.
pub fn at_lsn(g: Geometry, last: u64) -> Geometry
    ensures { result ≡ with_lsn g last }
{
    Geometry {
        last_lsn: last,
        ..g
    }
}

// A fresh block between two siblings, where the geometry is good, the version has such a tree and the header fits.
pub fn between(
    g: Geometry,
    kind: TreeKind,
    block: u32,
    level: u16,
    numrecs: u16,
    left: u32,
    right: u32,
    b: &mut [u8],
)
    ensures { b.new ≡ fresh_between g kind block level numrecs left right b.old }
{
    if g.is_ok() && kind.is_in(g.version) && header_len(g.version) <= b.len() {
        stamp(
            g,
            kind,
            AgBlock(block),
            level,
            numrecs,
            AgBlock(left),
            AgBlock(right),
            b,
        );
    }
}

// The same with no siblings.
pub fn fresh(g: Geometry, kind: TreeKind, block: u32, level: u16, numrecs: u16, b: &mut [u8])
    ensures { b.new ≡ fresh_between g kind block level numrecs null_ag_block null_ag_block b.old }
{
    between(
        g,
        kind,
        block,
        level,
        numrecs,
        NULL_AGBLOCK,
        NULL_AGBLOCK,
        b,
    );
}

fn put(b: &mut [u8], at: usize, value: u8)
    ensures { b.new ≡ set b.old at value }
{
    if at < b.len() {
        b[at] = value;
    }
}

// The check put in again, where there is room for it.
fn seal(b: &mut [u8])
    ensures { b.new ≡ sealed b.old }
{
    if offsets::V5_HEADER_LEN <= b.len() {
        let crc = crc32c_with_zeroed_crc(b, offsets::CRC);
        put_le32(b, offsets::CRC, crc);
    }
}

// A block damaged at one byte, its check put in again where asked.
pub fn damage(b: &mut [u8], at: usize, value: u8, again: bool)
    ensures { b.new ≡ damaged b.old at value again }
{
    put(b, at, value);
    if again {
        seal(b);
    }
}
