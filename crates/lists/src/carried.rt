// What a pass along the shared counts is asked, and what it carries from record to record.
ghost use Rattle.std.specs.Prelude.{◌≡◌, ◌&&◌, ltb, leb};
ghost use Rattle.lists.specs.Inner.Passes.{raises, writes_counts, writes_free};

use codec::refcount::Refcount;

// What becomes of the owners of an extent.
// An enum and no trait: it is asked at two places, and each change is one expression there.
#[derive(Clone, Copy)]
pub(crate) enum Change {
    // one fewer, as in a release
    Lower,
    // one more, as in a raise
    Raise,
}

impl Change {
    pub(crate) fn raises(self) -> bool
        ensures { result ≡ raises self }
    {
        match self {
            Change::Lower => false,
            Change::Raise => true,
        }
    }
}

// An edit of the counts: what becomes of the owners of the blocks from `start` up to `end`.
#[derive(Clone, Copy)]
pub(crate) struct CountEdit {
    pub how: Change,
    pub start: u64,
    pub end: u64,
}

impl CountEdit {
    // Does the record from `start` up to `end` meet its blocks?
    pub(crate) fn meets(self, start: u64, end: u64) -> bool
        ensures { result ≡ (ltb self.start end && ltb start self.end) }
    {
        self.start < end && start < self.end
    }

    // Does it lie within them?
    pub(crate) fn covers(self, start: u64, end: u64) -> bool
        ensures { result ≡ (leb self.start start && leb end self.end) }
    {
        self.start <= start && end <= self.end
    }
}

// What a pass does. An enum and no trait: it is asked where a record or an extent is put, and nowhere else. It goes beside the two buffers: a struct of `&mut`
// slices that is passed on gets no generated proof.
#[derive(Clone, Copy)]
pub(crate) enum Pass {
    // decides and adds up the lengths, and writes nothing
    Measure,
    // writes the new counts
    Counts,
    // writes the new counts and the free extents
    Both,
}

impl Pass {
    pub(crate) fn writes_counts(self) -> bool
        ensures { result ≡ writes_counts self }
    {
        match self {
            Pass::Measure => false,
            Pass::Counts => true,
            Pass::Both => true,
        }
    }

    pub(crate) fn writes_free(self) -> bool
        ensures { result ≡ writes_free self }
    {
        match self {
            Pass::Measure => false,
            Pass::Counts => false,
            Pass::Both => true,
        }
    }
}

// The record that waits for its successor, none if its count is 0; `at` is the place behind the finished ones.
// No Option of a record: a count of 0 joins nothing and puts nothing, by the same tests as any other count.
#[derive(Clone, Copy)]
pub(crate) struct Joiner {
    pub start: u32,
    pub count: u32,
    pub owners: u32,
    pub at: usize,
}

// What is carried from record to record.
#[derive(Clone, Copy)]
pub(crate) struct Carried {
    // the record before
    pub prev: Refcount,
    pub joiner: Joiner,
    // where the next blocks without a record may begin
    pub gap: u64,
    // the bytes of the free extents found
    pub free: usize,
    // Flags, and no early refusal: 21 of a later record comes before 25 and 28.
    // has no record staged a block of the extent?
    pub clear: bool,
    // can each record of the extent tell one owner more?
    pub fit: bool,
}
