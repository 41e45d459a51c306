// The first step of a release or a raise: its questions but 26, and both lengths.
ghost use Rattle.std.specs.Prelude.{◌≡◌};
ghost use Rattle.lists.specs.Answer.{released_outcome, lengths_of};
ghost use Rattle.lists.specs.Extent.{good_extent};
ghost use Rattle.lists.specs.Inner.Passes.{raises, measured_outcome};

use crate::carried::{Change, Pass};
use crate::pass::pass;
use crate::{EditRefusal, Lengths};
use codec::check::{END_LIMIT, ListRefusal};
use codec::refcount::{REFCOUNT_LEN, check_order};

// 22: is the extent good?
#[tactic(auto, unfolding(crate::specs::Extent::good_extent))]
fn good_extent(startblock: u32, blockcount: u32) -> bool
    ensures { result ≡ good_extent startblock blockcount }
{
    blockcount > 0 && startblock as u64 + blockcount as u64 <= END_LIMIT
}

// Asks 19, 21, 22 and 25, in a raise 28 too, and says the bytes of the new counts and of the free extents. Writes nothing.
pub(crate) fn measured(
    counts: &[u8],
    startblock: u32,
    blockcount: u32,
    how: Change,
) -> Result<Lengths, EditRefusal>
    ensures { released_outcome result ≡ lengths_of (measured_outcome (raises how) counts.now startblock blockcount) }
{
    if !good_extent(startblock, blockcount) {
        check_order(counts)?;
        return Err(EditRefusal::Extent);
    }
    if counts.len() % REFCOUNT_LEN != 0 {
        return Err(EditRefusal::List(ListRefusal::Length));
    }
    // a pass that measures writes nothing
    pass(
        counts,
        startblock,
        blockcount,
        how,
        &mut [],
        &mut [],
        Pass::Measure,
    )
}
