// The call that says why a block of a letting go is free now, still held, or staging.
ghost use Rattle.std.specs.Prelude.{◌≡◌, ◌/◌, ◌^◌};
ghost use Rattle.codec.specs.Records.{rmaps, refcounts};
ghost use Rattle.reasons.specs.Why.{explain_outcome};
ghost use Rattle.reasons.specs.Answer.{Named};
ghost use Rattle.interface.specs.Interface.{extent_of, Says};
ghost use Rattle.list_calls.specs.ExplainFigures.{explain_figures};

use codec::refcount::REFCOUNT_LEN;
use codec::rmap::RMAP_LEN;
use interface::answer::{answer_of, say};
use interface::given::extent;
use reasons::explain::{Why, decide};

// The figures of what decides. The record named stands in a list of fewer than 2^64 bytes, so where it begins is a number of 64 bits.
fn why_figures(w: Why) -> [u64; 4]
    requires { Named w (2 ^ 64 / rmaps.size) (2 ^ 64 / refcounts.size) }
    ensures { result ≡ explain_figures w }
{
    match w {
        Why::Free => [0, 0, 0, 0],
        Why::HeldInMap(i) => [1, 1, (i * RMAP_LEN) as u64, RMAP_LEN as u64],
        Why::HeldInCounts(i) => [1, 2, (i * REFCOUNT_LEN) as u64, REFCOUNT_LEN as u64],
        Why::Staging(i) => [2, 2, (i * REFCOUNT_LEN) as u64, REFCOUNT_LEN as u64],
    }
}

// Why a block of the extent is free now, still held, or staging, before the extent is let go: questions 19, 20, 22, 24, then 19, 21, 25 (only if the block is
// not under a staging record itself), then 31. The figures are 0, 1 or 2 for the three; the list that holds the deciding record, 0 where there is none, 1 the
// reverse map, 2 the counts; the byte of that list at which the record begins, and its length.
#[unsafe(no_mangle)]
pub extern "C" fn kf_explain(
    map: &[u8],
    counts: &[u8],
    startblock: u32,
    blockcount: u32,
    owner: u64,
    offset: u64,
    block: u32,
    said: &mut [u64; 4],
) -> u32
    ensures { Says explain_figures (explain_outcome map.now counts.now (extent_of startblock blockcount owner offset) block)
        result said.new }
{
    let x = extent(startblock, blockcount, owner, offset);
    say(answer_of(decide(map, counts, x, block), why_figures), said)
}
