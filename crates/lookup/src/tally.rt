// The counts of a lookup, kept as differences: what a record adds to a run of numbers is one more where the run begins and one less where it ends.
ghost use Rattle.std.specs.Prelude.{◌≡◌, ◌/◌, ◌≤◌, [], ◌∷◌, length};
ghost use Rattle.codec.specs.Records.{records_of, rmaps};
ghost use Rattle.lookup.specs.Inner.Tally.{tallied, sums, summed, Room};

use crate::numbers::Asked;
use codec::rmap::{RMAP_LEN, Rmap, decode};

// Adds a record, and says the first number from its start on, which is looked for at place `near` first. Its end can be above 2^32.
fn tally(r: Rmap, asked: Asked, answers: &mut [u64], near: usize) -> usize
    requires { (length asked.numbers.now ≤ length answers.old)
        × Room 1 asked.numbers.now (summed (length asked.numbers.now) answers.old) }
    ensures { summed (length asked.entry.numbers.now) answers.new
        ≡ tallied (r ∷ []) asked.entry.numbers.now (summed (length asked.entry.numbers.now) answers.old) }
{
    let start = r.startblock as u64;
    let end = start + r.blockcount as u64;
    let from = asked.first_near(near, start);
    if !asked.is_below(from, end) {
        return from;
    }
    answers[from] = answers[from].wrapping_add(1);
    let to = asked.first_near(from + 1, end);
    if to < asked.numbers.len() {
        answers[to] = answers[to].wrapping_sub(1);
    }
    from
}

// Adds the records of a leaf. Their starts ascend where the tree is in order, and most come before the same number as the one in front.
pub(crate) fn tally_leaf(records: &[u8], asked: Asked, answers: &mut [u64])
    requires { (length asked.numbers.now ≤ length answers.old)
        × Room (length records.now / rmaps.size) asked.numbers.now (summed (length asked.numbers.now) answers.old) }
    ensures { summed (length asked.entry.numbers.now) answers.new
        ≡ tallied (records_of rmaps records.now) asked.entry.numbers.now (summed (length asked.entry.numbers.now) answers.old) }
{
    let mut near = 0;
    for i in 0..records.len() / RMAP_LEN {
        let r = decode(records, i * RMAP_LEN);
        near = tally(r, asked, answers, near);
    }
}

// After the last record: the counts in place of the differences.
pub(crate) fn sum_up(answers: &mut [u64])
    ensures { answers.new ≡ sums 0 answers.old }
{
    let mut sum: u64 = 0;
    for place in answers.iter_mut() {
        sum = sum.wrapping_add(*place);
        *place = sum;
    }
}
