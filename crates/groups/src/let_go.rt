// The whole letting go: prepared and measured without a write, then written where everything fits.
ghost use Rattle.groups.specs.Answer.{LetsGo};
ghost use Rattle.groups.specs.Inner.Measured.{LetGoMeasured};

use crate::Sizes;
use crate::measured::{Measure, fit_all};
use codec::rmap::Rmap;
use lists::EditRefusal;
use lists::refcounts::{measure, write};
use lists::rmap_edits::prepare;
use lists::splice::Edit;
use lists::write::write_splice;

// All questions but 26: 19, 20, 22, 24, then 19, 21, 25. Nothing is written.
fn measure_both(map: &[u8], counts: &[u8], x: Rmap) -> Result<Measure, EditRefusal>
    ensures { LetGoMeasured map.now counts.now x result }
{
    let splice = prepare(map, Edit::Remove, x)?;
    let n = measure(counts, x.startblock, x.blockcount)?;
    Ok(Measure {
        splice,
        sizes: Sizes {
            map: splice.size,
            counts: n.counts,
            free: n.free,
        },
    })
}

// Lets the extent x go: its owner's mapping leaves the reverse map, the counts of its blocks are lowered, and the blocks that no shared record
// covered are free again. Asks 19, 20, 22, 24 of the reverse map, then 19, 21, 25 of the counts, and 26 last of all; writes the three new lists
// and says their lengths in bytes. A refusal writes nothing.
pub fn let_go(
    map: &[u8],
    counts: &[u8],
    x: Rmap,
    kept: &mut [u8],
    lowered: &mut [u8],
    free: &mut [u8],
) -> Result<Sizes, EditRefusal>
    ensures { LetsGo map.now counts.now x result
        kept.old kept.new lowered.old lowered.new free.old free.new }
{
    let m = measure_both(map, counts, x)?;
    if !fit_all(m.sizes, kept.len(), lowered.len(), free.len()) {
        return Err(EditRefusal::Room);
    }
    write_splice(map, m.splice, kept);
    write(counts, x.startblock, x.blockcount, lowered, free);
    Ok(m.sizes)
}
