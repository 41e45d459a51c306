// Whether a block of a letting go is free now, still held, or staging, and the bytes of the record that decides.
ghost use Rattle.std.specs.Prelude.{◌≡◌, ◌/◌, length};
ghost use Rattle.codec.specs.Records.{records_of, rmaps, refcounts};
ghost use Rattle.codec.specs.Told.{Tells};
ghost use Rattle.reasons.specs.declared.explain.ExplainRefusal.TheVariants.{Edit};
ghost use Rattle.reasons.specs.Why.{held_of, deciding_bytes, explain_outcome};
ghost use Rattle.reasons.specs.Answer.{explain_number, explain_values, explained_outcome, number_said, Named, Explains};
ghost use Rattle.reasons.specs.Inner.Deciding.{staged_answer, held_answer};

use crate::find::{find_count, over};
use crate::scan::find_other;
use codec::refcount::REFCOUNT_LEN;
use codec::refusal::Told;
use codec::rmap::{RMAP_LEN, Rmap};
use lists::EditRefusal;
use lists::refcounts::measure;

// What decides: nothing, or a record of either list, by its index.
#[derive(Clone, Copy)]
pub enum Why {
    // free now
    Free,
    // still held, by a record of the reverse map
    HeldInMap(usize),
    // still held, by a shared count alone
    HeldInCounts(usize),
    // under a staging record of the counts
    Staging(usize),
}

// Why an explanation is refused. The number of each case (docs/QUESTIONS.md) is `explain_number` of specs/Answer.antt.
#[derive(Clone, Copy, Debug, PartialEq, Eq)]
pub enum ExplainRefusal {
    // the letting go's own: 19 to 22, 24 and 25
    Edit(EditRefusal),
    // the block lies outside the extent: 31
    NotInExtent,
}

impl From<EditRefusal> for ExplainRefusal {
    ghost from_gives = { λ e r. r ≡ Edit e };

    fn from(e: EditRefusal) -> ExplainRefusal {
        ExplainRefusal::Edit(e)
    }
}

// No question on an explanation has values.
impl From<ExplainRefusal> for Told {
    ghost from_gives = { λ r t. Tells t (explain_number r) (explain_values r) };

    fn from(r: ExplainRefusal) -> Told {
        match r {
            ExplainRefusal::Edit(refusal) => Told::from(refusal),
            ExplainRefusal::NotInExtent => Told::plain(31),
        }
    }
}

// Both lists, the extent and the block are parameters throughout, as the promises of `decide` and `explain` have them.

// What holds a block that no staging record lies over, `other` being the first record over it other than the one cut.
fn holder(map: &[u8], counts: &[u8], other: usize, block: u32) -> Why
    ensures { result ≡ held_of other block (records_of rmaps map.now) (records_of refcounts counts.now) }
{
    match find_count(counts, false, block) {
        None => Why::Free,
        Some(_) if other < map.len() / RMAP_LEN => Why::HeldInMap(other),
        Some(shared) => Why::HeldInCounts(shared),
    }
}

// The extent is clear of staging records: 31 is left.
fn explain_clear(
    map: &[u8],
    counts: &[u8],
    x: Rmap,
    other: usize,
    block: u32,
) -> Result<Why, ExplainRefusal>
    ensures { explained_outcome result ≡ held_answer x other block (records_of rmaps map.now) (records_of refcounts counts.now) }
{
    if !over(x.startblock, x.blockcount, block) {
        return Err(ExplainRefusal::NotInExtent);
    }
    Ok(holder(map, counts, other, block))
}

// The extent meets a staging record: 25 if none lies over the block, then 31.
fn explain_staged(counts: &[u8], x: Rmap, block: u32) -> Result<Why, ExplainRefusal>
    ensures { explained_outcome result ≡ staged_answer x block (records_of refcounts counts.now) }
{
    match find_count(counts, true, block) {
        None => Err(ExplainRefusal::Edit(EditRefusal::Staging)),
        Some(_) if !over(x.startblock, x.blockcount, block) => Err(ExplainRefusal::NotInExtent),
        Some(staged) => Ok(Why::Staging(staged)),
    }
}

// Why the block is free, held or staging when the extent x is let go, and where the deciding record stands. Asks what the whole letting go asks but 26, 25
// only if no staging record lies over the block itself, and 31 last; nothing is written.
pub fn decide(map: &[u8], counts: &[u8], x: Rmap, block: u32) -> Result<Why, ExplainRefusal>
    ensures { explained_outcome result ≡ explain_outcome map.now counts.now x block }
{
    let other = find_other(map, x, block)?;
    match measure(counts, x.startblock, x.blockcount) {
        Ok(_) => explain_clear(map, counts, x, other, block),
        Err(refusal) => match refusal {
            EditRefusal::Staging => explain_staged(counts, x, block),
            _ => Err(ExplainRefusal::Edit(refusal)),
        },
    }
}

// The bytes of the record named: a part of the one list or of the other. Both lists have the part's lifetime.
fn record_at<'a>(map: &'a [u8], counts: &'a [u8], w: Why) -> &'a [u8]
    requires { Named w (length map.now / rmaps.size) (length counts.now / refcounts.size) }
    ensures { result.now ≡ deciding_bytes map.now counts.now w }
{
    match w {
        Why::Free => &map[..0],
        Why::HeldInMap(i) => &map.as_chunks::<RMAP_LEN>().0[i],
        Why::HeldInCounts(i) | Why::Staging(i) => &counts.as_chunks::<REFCOUNT_LEN>().0[i],
    }
}

// 0 free now, 1 still held, 2 staging, or the number of the question that failed.
fn number(answer: Result<Why, ExplainRefusal>) -> u32
    ensures { result ≡ number_said (explained_outcome answer) }
{
    match answer {
        Ok(Why::Free) => 0,
        Ok(Why::HeldInMap(_) | Why::HeldInCounts(_)) => 1,
        Ok(Why::Staging(_)) => 2,
        Err(refusal) => Told::from(refusal).number,
    }
}

// The same as `decide`, with the deciding record's bytes handed back, from whichever of the two lists holds it. A free block gets an empty part, and so does a
// refusal. `said` is 0 free now, 1 still held, 2 staging, or the number of the question that failed: a number beside the part, as the promise `Explains` has it.
pub fn explain<'a>(map: &'a [u8], counts: &'a [u8], x: Rmap, block: u32, said: &mut u32) -> &'a [u8]
    ensures { Explains map.now counts.now x block result.now said.new }
{
    let answer = decide(map, counts, x, block);
    *said = number(answer);
    match answer {
        Ok(w) => record_at(map, counts, w),
        Err(_) => &map[..0],
    }
}
