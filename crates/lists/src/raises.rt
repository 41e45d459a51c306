// Blocks taken that others hold already: each has one owner more in the shared counts. The old list is read, the new one goes to a buffer.
ghost use Rattle.std.specs.Prelude.{◌≡◌, ◌+◌, length};
ghost use Rattle.codec.specs.Bytes.{with_bytes};
ghost use Rattle.codec.specs.Records.{records_of, bytes_of, refcounts};
ghost use Rattle.lists.specs.Raise.{raise, raise_outcome, Raisable};
ghost use Rattle.lists.specs.Answer.{edited_outcome, length_of};

use crate::EditRefusal;
use crate::carried::{Change, Pass};
use crate::measure::measured;
use crate::pass::pass;

// The first step of a raise: asks 19, 21, 22, 25 and 28, and says the bytes of the new counts. Writes nothing.
pub fn measure(counts: &[u8], startblock: u32, blockcount: u32) -> Result<usize, EditRefusal>
    ensures { edited_outcome result ≡ length_of refcounts (raise_outcome counts.now startblock blockcount) }
{
    let lengths = measured(counts, startblock, blockcount, Change::Raise)?;
    Ok(lengths.counts)
}

// The second step: writes the new counts, where the questions of the first hold and they fit.
pub fn write(counts: &[u8], startblock: u32, blockcount: u32, new: &mut [u8])
    requires { Raisable (records_of refcounts counts.now) startblock blockcount (length new.old) }
    ensures { new.new
        ≡ with_bytes new.old 0 (bytes_of refcounts (raise startblock (startblock + blockcount) (records_of refcounts counts.now))) }
{
    // no block is free after a raise
    // the questions hold, so it refuses nothing
    let _ = pass(
        counts,
        startblock,
        blockcount,
        Change::Raise,
        new,
        &mut [],
        Pass::Counts,
    );
}
