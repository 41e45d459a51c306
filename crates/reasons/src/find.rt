// Searches of the shared counts for a record over a block.
ghost use Rattle.std.specs.Prelude.{◌≡◌, position};
ghost use Rattle.codec.specs.Records.{records_of, refcounts};
ghost use Rattle.lists.specs.Extent.{over};
ghost use Rattle.reasons.specs.Inner.Deciding.{count_over};

use codec::refcount::{REFCOUNT_LEN, Refcount, decode};

// Does the extent lie over the block?
pub(crate) fn over(startblock: u32, blockcount: u32, block: u32) -> bool
    ensures { result ≡ over startblock blockcount block }
{
    startblock <= block && (block as u64) < startblock as u64 + blockcount as u64
}

// Is r a staging record over the block, or a shared count over it?
fn count_over(staging: bool, r: Refcount, block: u32) -> bool
    ensures { result ≡ count_over staging block r }
{
    r.is_staging() == staging && over(r.block(), r.blockcount, block)
}

// The index of the first staging record over the block, or of the first shared count.
pub(crate) fn find_count(counts: &[u8], staging: bool, block: u32) -> Option<usize>
    ensures { result ≡ position (count_over staging block) (records_of refcounts counts.now) }
{
    let (records, _) = counts.as_chunks::<REFCOUNT_LEN>();
    records
        .iter()
        .position(|r| count_over(staging, decode(r, 0), block))
}
