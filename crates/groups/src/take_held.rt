// A take of blocks that others hold: prepared and measured without a write, then written where both lists fit.
ghost use Rattle.std.specs.Prelude.{◌≡◌, true};
ghost use Rattle.codec.specs.Question.{none, refused};
ghost use Rattle.codec.specs.Records.{records_of, rmaps};
ghost use Rattle.codec.specs.Rmaps.{accepted};
ghost use Rattle.lists.specs.Answer.{edit_number};
ghost use Rattle.groups.specs.Answer.{TakesHeld};
ghost use Rattle.groups.specs.Inner.Measured.{TakeHeldMeasured};
ghost use Rattle.groups.specs.Inner.Order.{counts_before, held_before};

use crate::Sizes;
use crate::measured::{Measure, fit_all};
use codec::refcount::check_order;
use codec::rmap::Rmap;
use lists::EditRefusal;
use lists::held::held;
use lists::raises::{measure, write};
use lists::rmap_edits::prepare;
use lists::splice::Edit;
use lists::write::write_splice;

// The reverse map is refused. A refusal of its list comes first of all; 19 and 21 of the counts come before one of the extent, 22 or 23.
fn counts_before(counts: &[u8], why: EditRefusal) -> EditRefusal
    ensures { counts_before counts.now why ≡ refused (edit_number result) none }
{
    match why {
        EditRefusal::List(_) => why,
        _ => match check_order(counts) {
            Err(list) => EditRefusal::from(list),
            Ok(_) => why,
        },
    }
}

// The raise is refused. 27 comes before 28, and after all its other questions.
fn held_before(map: &[u8], x: Rmap, why: EditRefusal) -> EditRefusal
    requires { accepted (records_of rmaps map.now) ≡ true }
    ensures { held_before (records_of rmaps map.now) x why ≡ refused (edit_number result) none }
{
    match why {
        EditRefusal::Owners => {
            if held(map, x.startblock, x.blockcount) {
                return EditRefusal::Owners;
            }
            EditRefusal::Unheld
        }
        _ => why,
    }
}

// All questions but 26: 19, 20 of the reverse map, 19, 21 of the counts, then 22, 23, 25, 27 and 28. Nothing is written. No `?`: either refusal may be
// another one after further questions, and through `map_err` the proof did not close.
fn measure_both(map: &[u8], counts: &[u8], x: Rmap) -> Result<Measure, EditRefusal>
    ensures { TakeHeldMeasured map.now counts.now x result }
{
    let splice = match prepare(map, Edit::InsertShared, x) {
        Err(why) => return Err(counts_before(counts, why)),
        Ok(p) => p,
    };
    let raised = match measure(counts, x.startblock, x.blockcount) {
        Err(why) => return Err(held_before(map, x, why)),
        Ok(n) => n,
    };
    if !held(map, x.startblock, x.blockcount) {
        return Err(EditRefusal::Unheld);
    }
    Ok(Measure {
        splice,
        sizes: Sizes {
            map: splice.size,
            counts: raised,
            free: 0,
        },
    })
}

// Takes an extent whose blocks are all held: its mapping goes into the reverse map, and the owners of its blocks are raised. Asks 19 and 20 of the
// reverse map, 19 and 21 of the counts, then 22, 23, 25, 27 and 28, and 26 last of all; writes both new lists and says their lengths in bytes. A
// refusal writes nothing.
pub fn take_held(
    map: &[u8],
    counts: &[u8],
    x: Rmap,
    taken: &mut [u8],
    raised: &mut [u8],
) -> Result<Sizes, EditRefusal>
    ensures { TakesHeld map.now counts.now x result
        taken.old taken.new raised.old raised.new }
{
    let m = measure_both(map, counts, x)?;
    if !fit_all(m.sizes, taken.len(), raised.len(), 0) {
        return Err(EditRefusal::Room);
    }
    write_splice(map, m.splice, taken);
    write(counts, x.startblock, x.blockcount, raised);
    Ok(m.sizes)
}
