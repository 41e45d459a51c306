// Answer sheets: lists of changes, in blocks of 512 bytes with a CRC each.
#![tactic(auto)]

ghost use Rattle.codec.specs.Told.{Tells};
ghost use Rattle.sheets.specs.Answer.{sheet_number, sheet_values};

use codec::refusal::Told;

mod block;
pub mod change;
pub mod read;
pub mod write;

// Why a sheet or a list of changes is refused. The number of each case (docs/QUESTIONS.md) is `sheet_number` of specs/Answer.antt.
#[derive(Clone, Copy, Debug, PartialEq, Eq)]
pub enum SheetRefusal {
    // the output is too short
    Room,
    // a block's CRC is not that of its bytes, or the last block is not whole
    Crc,
    // any other rule of a sheet, or of a list of changes
    Rule,
}

// No question on a sheet has values.
impl From<SheetRefusal> for Told {
    ghost from_gives = { λ r t. Tells t (sheet_number r) (sheet_values r) };

    fn from(r: SheetRefusal) -> Told {
        match r {
            SheetRefusal::Room => Told::plain(26),
            SheetRefusal::Crc => Told::plain(32),
            SheetRefusal::Rule => Told::plain(33),
        }
    }
}
