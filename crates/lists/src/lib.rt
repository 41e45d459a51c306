// Edits of the two lists of a group: extents taken and given up in the reverse map, and counts lowered and raised.
#![tactic(auto)]

ghost use Rattle.std.specs.Prelude.{◌≡◌};
ghost use Rattle.codec.specs.Told.{Tells};
ghost use Rattle.lists.specs.declared.EditRefusal.TheVariants.{List};
ghost use Rattle.lists.specs.Answer.{edit_number, edit_values};

use codec::check::ListRefusal;
use codec::refusal::Told;

mod carried;
mod findings;
mod gaps;
pub mod held;
mod join;
mod measure;
mod ordered;
mod pass;
pub mod raises;
pub mod refcounts;
pub mod rmap_edits;
pub mod search;
pub mod splice;
mod unchanged;
pub mod write;

// Why an edit is refused. The number of each case (docs/QUESTIONS.md) is `edit_number` of specs/Answer.antt.
#[derive(Clone, Copy, Debug, PartialEq, Eq)]
pub enum EditRefusal {
    // the list is not one: 19, 20 or 21
    List(ListRefusal),
    // the extent is not good
    Extent,
    // a take meets a record in its way
    Overlap,
    // no record contains the extent
    Missing,
    // the extent meets a staging record
    Staging,
    // a new list, or the free extents, would not fit
    Room,
    // a take of held blocks meets one that nobody holds
    Unheld,
    // a block has as many owners as a record can tell already
    Owners,
}

impl From<ListRefusal> for EditRefusal {
    ghost from_gives = { λ e r. r ≡ List e };

    fn from(e: ListRefusal) -> EditRefusal {
        EditRefusal::List(e)
    }
}

// No question on an edit has values.
impl From<EditRefusal> for Told {
    ghost from_gives = { λ r t. Tells t (edit_number r) (edit_values r) };

    fn from(r: EditRefusal) -> Told {
        match r {
            EditRefusal::List(l) => Told::from(l),
            EditRefusal::Extent => Told::plain(22),
            EditRefusal::Overlap => Told::plain(23),
            EditRefusal::Missing => Told::plain(24),
            EditRefusal::Staging => Told::plain(25),
            EditRefusal::Room => Told::plain(26),
            EditRefusal::Unheld => Told::plain(27),
            EditRefusal::Owners => Told::plain(28),
        }
    }
}

// The bytes of the new counts, and of the free extents.
#[derive(Clone, Copy, Debug, PartialEq, Eq)]
pub struct Lengths {
    pub counts: usize,
    pub free: usize,
}
