// What an edit of a reverse map searches for and finds.

// Which searches of an edit a record passes: `tests` of specs/Inner/Searches.antt.
#[derive(Clone, Copy)]
pub(crate) struct Hits {
    // one that the extent may not be taken over
    pub conflict: bool,
    // one that the extent continues
    pub before: bool,
    // one that continues the extent
    pub after: bool,
    // one that contains the extent and lines up with it
    pub aligned: bool,
    // one that contains the extent
    pub containing: bool,
}

// None of them.
pub(crate) const NO_HITS: Hits = Hits {
    conflict: false,
    before: false,
    after: false,
    aligned: false,
    containing: false,
};

// One pass over a list in order: the first record that passes each search, or the number of records.
// Numbers, no Options, as `note_of` and `index_where` have them: where nothing is found, the number of records.
#[derive(Clone, Copy)]
pub(crate) struct Scan {
    pub conflict: usize,
    pub before: usize,
    pub after: usize,
    pub aligned: usize,
    pub containing: usize,
}
