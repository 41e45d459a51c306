// Edits of a reverse map prepared by value: a splice is the new list as parts of the old one.
use codec::rmap::Rmap;

// What becomes of an extent. An enum and no trait: it is asked at two places, and each edit is one arm there.
#[derive(Clone, Copy)]
pub enum Edit {
    Insert,
    InsertShared,
    Remove,
}

// A part of a new list: a record if there is one, then the records of the old list from `from` up to `to`.
#[derive(Clone, Copy)]
pub struct Part {
    pub rmap: Option<Rmap>,
    pub from: usize,
    pub to: usize,
}

// A new list: the first records of the old one, two parts, and the records of the old one from `rest` on. `size` is its bytes.
#[derive(Clone, Copy)]
pub struct Splice {
    pub front: usize,
    pub first: Part,
    pub second: Part,
    pub rest: usize,
    pub size: usize,
}
