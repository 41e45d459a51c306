// Calls that check a list, and one that holds two lists against each other.
ghost use Rattle.std.specs.Prelude.{◌≡◌};
ghost use Rattle.codec.specs.Rmaps as rmap;
ghost use Rattle.codec.specs.Refcounts as refcount;
ghost use Rattle.free.specs.Free as free;
ghost use Rattle.free.specs.declared.order.Order.TheVariants as order;
ghost use Rattle.free.specs.Same.{same_outcome};
ghost use Rattle.interface.specs.Interface.{number_of, Says};
ghost use Rattle.tree_calls.specs.SameFigures.{same_figures};

use crate::answers::{list_number, same_figures};
use free::order::{Order, check_order};
use free::same::same_extents;
use interface::answer::{answer_of, say};

// Questions 19 and 20 on a reverse map.
#[unsafe(no_mangle)]
pub extern "C" fn kf_check_rmaps(list: &[u8]) -> u32
    ensures { result ≡ number_of (rmap.check_order list.now) }
{
    list_number(codec::rmap::check_order(list))
}

// Questions 19 and 21 on shared counts.
#[unsafe(no_mangle)]
pub extern "C" fn kf_check_refcounts(list: &[u8]) -> u32
    ensures { result ≡ number_of (refcount.check_order list.now) }
{
    list_number(codec::refcount::check_order(list))
}

// Questions 19 and 21 on free extents by block.
#[unsafe(no_mangle)]
pub extern "C" fn kf_check_by_block(list: &[u8]) -> u32
    ensures { result ≡ number_of (free.check_order order.ByBlock list.now) }
{
    list_number(check_order(Order::ByBlock, list))
}

// Questions 19 and 21 on free extents by size.
#[unsafe(no_mangle)]
pub extern "C" fn kf_check_by_size(list: &[u8]) -> u32
    ensures { result ≡ number_of (free.check_order order.BySize list.now) }
{
    list_number(check_order(Order::BySize, list))
}

// Do a list by block and a list by size hold the same extents, equally often? Questions 19 and 21 on the first, then on the second. The figure is 1 for
// yes, 0 for no.
#[unsafe(no_mangle)]
pub extern "C" fn kf_same_extents(by_block: &[u8], by_size: &[u8], said: &mut [u64; 4]) -> u32
    ensures { Says same_figures (same_outcome by_block.now by_size.now) result said.new }
{
    say(
        answer_of(same_extents(by_block, by_size), same_figures),
        said,
    )
}
