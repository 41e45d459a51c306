// A list of free extents, by block or by size: questions 19 and 21.
ghost use Rattle.std.specs.Prelude.{◌≡◌};
ghost use Rattle.codec.specs.ListRefusal.{list_outcome};
ghost use Rattle.free.specs.Free.{end, good, follows, least, check_order};

use codec::check::{END_LIMIT, ListRefusal};
use codec::free_extent::FreeExtent;
use codec::list;

// The orders of the two trees.
#[derive(Clone, Copy, Debug, PartialEq, Eq)]
pub enum Order {
    // by start
    ByBlock,
    // by count, then start
    BySize,
}

// One more than the last block of an extent.
fn end(e: FreeExtent) -> u64
    ensures { result ≡ end e }
{
    e.startblock as u64 + e.blockcount as u64
}

impl list::Order for Order {
    type Item = FreeExtent;

    ghost is_good = { λ _. good };

    ghost may_follow = { follows };

    ghost least = { least };

    fn is_good(&self, e: FreeExtent) -> bool {
        e.blockcount != 0 && end(e) <= END_LIMIT
    }

    fn may_follow(&self, q: FreeExtent, e: FreeExtent) -> bool {
        match self {
            Order::ByBlock => end(q) <= e.startblock as u64,
            Order::BySize => (q.blockcount, q.startblock) < (e.blockcount, e.startblock),
        }
    }

    fn least(&self) -> FreeExtent {
        FreeExtent {
            startblock: 0,
            blockcount: 0,
        }
    }
}

// Questions 19 and 21 on a list of free extents.
pub fn check_order(order: Order, list: &[u8]) -> Result<usize, ListRefusal>
    ensures { list_outcome result ≡ check_order order list.now }
{
    list::check_order(&order, ListRefusal::ExtentOrder, list)
}
