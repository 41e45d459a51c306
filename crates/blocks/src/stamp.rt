// The header of a fresh block.
ghost use Rattle.std.specs.Prelude.{◌≡◌, true, ◌≤◌, length};
ghost use Rattle.codec.specs.Bytes.{with_bytes};
ghost use Rattle.blocks.specs.Geometry.{geometry_ok};
ghost use Rattle.blocks.specs.Offsets.{left_sibling_at, blkno_at, crc_at, magic_at, v4_header_len};
ghost use Rattle.blocks.specs.Tree.{header_len, has_tree};
ghost use Rattle.blocks.specs.Stamp.{siblings, plain_head, identity_head, stamped};

use crate::geometry::{AgBlock, Geometry};
use crate::kind::TreeKind;
use crate::offsets;
use codec::copy::copy;
use codec::crc::crc32c_with_zeroed_crc;
use codec::endian::{put_be16, put_be32, put_be64, put_le32};

// The siblings of a fresh block.
fn stamp_siblings(left: AgBlock, right: AgBlock, b: &mut [u8])
    requires { v4_header_len ≤ length b.old }
    ensures { b.new ≡ with_bytes b.old left_sibling_at (siblings left.0 right.0) }
{
    put_be32(b, offsets::LEFT_SIBLING, left.0);
    put_be32(b, offsets::RIGHT_SIBLING, right.0);
}

// The fields of a fresh block that every version has.
fn stamp_plain(
    kind: TreeKind,
    version: u16,
    level: u16,
    numrecs: u16,
    left: AgBlock,
    right: AgBlock,
    b: &mut [u8],
)
    requires { v4_header_len ≤ length b.old }
    ensures { b.new ≡ with_bytes b.old magic_at (plain_head kind version level numrecs left.0 right.0) }
{
    put_be32(b, offsets::MAGIC, kind.magic(version));
    put_be16(b, offsets::LEVEL, level);
    put_be16(b, offsets::NUMRECS, numrecs);
    stamp_siblings(left, right, b);
}

// The fields that version 5 has before the check.
fn stamp_identity(g: Geometry, block: AgBlock, b: &mut [u8])
    requires { (geometry_ok g ≡ true) × (crc_at ≤ length b.old) }
    ensures { b.new ≡ with_bytes b.old blkno_at (identity_head g block.0) }
{
    put_be64(b, offsets::BLKNO, block.linear(g).address(g).0);
    put_be64(b, offsets::LSN, g.last_lsn);
    copy(&g.meta_uuid, b, offsets::UUID);
    put_be32(b, offsets::OWNER, g.agno);
}

// The header of a fresh block: on version 5 all of its fields, with the check, on version 4 those of every version. The check is over all of `b`, so
// what stands after the header has to be there already. The caller has asked questions 1 to 3. The parameters are those of the public promise.
pub fn stamp(
    g: Geometry,
    kind: TreeKind,
    block: AgBlock,
    level: u16,
    numrecs: u16,
    left: AgBlock,
    right: AgBlock,
    b: &mut [u8],
)
    requires { (geometry_ok g ≡ true) × (has_tree kind g.version ≡ true) × (header_len g.version ≤ length b.old) }
    ensures { b.new ≡ stamped g kind block.0 level numrecs left.0 right.0 b.old }
{
    stamp_plain(kind, g.version, level, numrecs, left, right, b);
    if g.version == 5 {
        stamp_identity(g, block, b);
        let crc = crc32c_with_zeroed_crc(b, offsets::CRC);
        put_le32(b, offsets::CRC, crc);
    }
}
