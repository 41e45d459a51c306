// Changes: 32 bytes each, in a list of them or in a block of a sheet.
ghost use Rattle.std.specs.Prelude.{◌≡◌};
ghost use Rattle.sheets.specs.Change.{good_change, good_changes, change_count, asked_by, change_at};

use codec::endian::be32;
use codec::rmap::{Rmap, decode};

// The bytes of a change: its kind (4), zeros (4) and a record of the reverse map (24).
pub const CHANGE_LEN: usize = 32;

const KIND: usize = 0;

const ZEROS: usize = 4;

const RECORD: usize = 8;

// The kinds. The match of `decode_change` makes a `SheetChange` of them: an enum between the two would repeat it.
const FIRST_TAKE: u32 = 1;

const LET_GO: u32 = 2;

const TAKE_HELD: u32 = 3;

// What a change asks for, with its extent: `insert`, `let_go` or `take_held`.
#[derive(Clone, Copy, Debug, PartialEq, Eq)]
pub enum SheetChange {
    FirstTake(Rmap),
    LetGo(Rmap),
    TakeHeld(Rmap),
}

// Is the change of one of the three kinds, with zeros behind it? The record is not asked.
fn good_change(c: &[u8; CHANGE_LEN]) -> bool
    ensures { result ≡ good_change c.now }
{
    (FIRST_TAKE..=TAKE_HELD).contains(&be32(c, KIND)) && be32(c, ZEROS) == 0
}

// Are all changes of the list good?
pub(crate) fn good_changes(list: &[u8]) -> bool
    ensures { result ≡ good_changes (change_count list.now) list.now }
{
    list.as_chunks().0.iter().all(|c| good_change(c))
}

// What the bytes of a change ask for; nothing where the kind is none of the three.
fn decode_change(c: &[u8; CHANGE_LEN]) -> Option<SheetChange>
    ensures { result ≡ asked_by c.now }
{
    let x = decode(c, RECORD);
    match be32(c, KIND) {
        FIRST_TAKE => Some(SheetChange::FirstTake(x)),
        LET_GO => Some(SheetChange::LetGo(x)),
        TAKE_HELD => Some(SheetChange::TakeHeld(x)),
        _ => None,
    }
}

// Change i of a list, where there is one.
pub fn change_at(list: &[u8], i: usize) -> Option<SheetChange>
    ensures { result ≡ change_at list.now i }
{
    decode_change(list.as_chunks().0.get(i)?)
}
