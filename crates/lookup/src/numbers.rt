// The numbers of a lookup: they ascend, and are searched by halves.
ghost use Rattle.std.specs.Prelude.{◌≡◌, true, false, ◌&&◌, length, nat_le, MatchOption};
ghost use Rattle.lookup.specs.Lookup.{ascending, any_between};
ghost use Rattle.lookup.specs.Inner.Numbers.{first_at, is_below};

// Numbers that ascend strictly.
#[derive(Clone, Copy)]
pub(crate) struct Asked<'a> {
    pub(crate) numbers: &'a [u32],
    ghost ascend: { ascending numbers.now ≡ true },
}

impl<'a> Asked<'a> {
    // 29: do they, and are there places for their answers?
    pub(crate) fn with_places(numbers: &'a [u32], places: usize) -> Option<Asked<'a>>
        ensures { MatchOption result ((ascending numbers.now && nat_le (length numbers.now) places) ≡ false)
            (λ a. ((ascending numbers.now && nat_le (length numbers.now) places) ≡ true) × (a.numbers.now ≡ numbers.now)) }
    {
        if places < numbers.len() {
            return None;
        }
        if numbers.is_sorted_by(|a, b| *a < *b) {
            Some(Asked { numbers })
        } else {
            None
        }
    }

    // The place of the first number that is not below `a`.
    fn first_at(self, a: u64) -> usize
        ensures { result ≡ first_at a self.entry.numbers.now }
    {
        self.numbers.partition_point(|x| u64::from(*x) < a)
    }

    // Is there a number i, and is it below `a`?
    pub(crate) fn is_below(self, i: usize, a: u64) -> bool
        ensures { result ≡ is_below self.entry.numbers.now i a }
    {
        i < self.numbers.len() && u64::from(self.numbers[i]) < a
    }

    // Is i the place of the first number that is not below `a`?
    fn is_first(self, i: usize, a: u64) -> bool
        ensures { result ≡ true → i ≡ first_at a self.entry.numbers.now }
    {
        !self.is_below(i, a) && (i == 0 || self.is_below(i - 1, a))
    }

    // The same place as `first_at`, looked for at `near` first.
    pub(crate) fn first_near(self, near: usize, a: u64) -> usize
        ensures { result ≡ first_at a self.entry.numbers.now }
    {
        if self.is_first(near, a) {
            near
        } else {
            self.first_at(a)
        }
    }

    // Does one of the numbers lie between two others, both included?
    pub(crate) fn any_between(self, low: u32, high: u32) -> bool
        ensures { result ≡ any_between self.entry.numbers.now low high }
    {
        let i = self.first_at(u64::from(low));
        i < self.numbers.len() && self.numbers[i] <= high
    }
}
