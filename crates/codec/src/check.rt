// What a check of a list of records answers. The number of each case is `list_number` of specs/ListRefusal.antt; docs/QUESTIONS.md has its
// question.
ghost use Rattle.codec.specs.ListRefusal.{list_number, list_values};
ghost use Rattle.codec.specs.Told.{Tells};

use crate::refusal::Told;

// The largest end of an extent, one more than the largest block number of a group.
pub const END_LIMIT: u64 = 0x8000_0000;

#[derive(Clone, Copy, Debug, PartialEq, Eq)]
pub enum ListRefusal {
    // the bytes are not whole records
    Length,
    // a reverse-map record is not good, or stands before its place
    RmapOrder,
    // a shared count or a free extent is not good, or stands before its place
    ExtentOrder,
}

// No question on a list has values.
impl From<ListRefusal> for Told {
    ghost from_gives = { λ r t. Tells t (list_number r) (list_values r) };

    fn from(r: ListRefusal) -> Told {
        match r {
            ListRefusal::Length => Told::plain(19),
            ListRefusal::RmapOrder => Told::plain(20),
            ListRefusal::ExtentOrder => Told::plain(21),
        }
    }
}
