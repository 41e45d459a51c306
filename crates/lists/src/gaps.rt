// The free extents: the gaps between shared records, record by record.
ghost use Rattle.std.specs.Prelude.{◌≡◌, true, ◌+◌, ◌≤◌, ◌^◌, length};
ghost use Rattle.codec.specs.Accepted.{end_limit};
ghost use Rattle.codec.specs.Records.{bytes_of, free_extents};
ghost use Rattle.lists.specs.Inner.Passes.{writes_free, put_if, gap_of};

use crate::carried::Pass;
use codec::free_extent::{EXTENT_LEN, FreeExtent, encode};

// The place behind a free extent at `at` from block `a` up to `z`; there is none if there is no block. A pass that writes free extents puts it into `free`.
pub(crate) fn put_gap(free: &mut [u8], at: usize, a: u64, z: u64, pass: Pass) -> usize
    requires at_bound { (at ≤ 2 ^ 36) × (z ≤ end_limit) }
    requires z_in_bounds { writes_free pass ≡ true → at + length (bytes_of free_extents (gap_of a z)) ≤ length free.old }
    ensures value { result ≡ at + length (bytes_of free_extents (gap_of a z)) }
    ensures free_after { free.new ≡ put_if (writes_free pass) free.old at (bytes_of free_extents (gap_of a z)) }
{
    if z <= a {
        return at;
    }
    if pass.writes_free() {
        let found = FreeExtent {
            startblock: a as u32,
            blockcount: (z - a) as u32,
        };
        encode(free, at, found);
    }
    at + EXTENT_LEN
}
