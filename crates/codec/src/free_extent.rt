// A free extent of a group.
ghost use Rattle.std.specs.Prelude.{◌≡◌, ◌+◌, ◌≤◌, length};
ghost use Rattle.codec.specs.Bytes.{bytes_at, with_bytes};
ghost use Rattle.codec.specs.Records.{free_extents};
ghost use Rattle.std.proofs.Common.{rules};

use crate::endian::{be32, put_be32};
use crate::list::Record;

#[derive(Clone, Copy, Debug, PartialEq, Eq)]
pub struct FreeExtent {
    pub startblock: u32,
    pub blockcount: u32,
}

// The bytes of an extent.
pub const EXTENT_LEN: usize = 8;

// The extent at `at` bytes into `buf`.
pub fn decode(buf: &[u8], at: usize) -> FreeExtent
    requires { at + free_extents.size ≤ length buf.now }
    ensures { result ≡ free_extents.decode (bytes_at buf.now at free_extents.size) }
{
    FreeExtent {
        startblock: be32(buf, at),
        blockcount: be32(buf, at + 4),
    }
}

// `e` written at `at` bytes into `buf`.
pub fn encode(buf: &mut [u8], at: usize, e: FreeExtent)
    requires { at + free_extents.size ≤ length buf.old }
    ensures { buf.new ≡ with_bytes buf.old at (free_extents.encode e) }
{
    put_be32(buf, at, e.startblock);
    put_be32(buf, at + 4, e.blockcount);
}

impl Record for FreeExtent {
    ghost kind = { free_extents };

    const LEN: usize = EXTENT_LEN;

    ghost LEN = { free_extents.size };

    fn decode(buf: &[u8], at: usize) -> FreeExtent {
        decode(buf, at)
    }

    fn encode(buf: &mut [u8], at: usize, e: FreeExtent) {
        encode(buf, at, e)
    }

    ghost len_is = { Prim.search rules };

    ghost has_bytes = { Prim.search rules };
}
