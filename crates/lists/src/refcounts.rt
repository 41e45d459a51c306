// Blocks let go in the shared counts: the old list is read, the new list and the free extents go to buffers of their own. The two numbers of an extent stand
// apart, here and in raises.rt, as the promises of both steps and the C interface have them.
ghost use Rattle.std.specs.Prelude.{◌≡◌, ◌+◌, length};
ghost use Rattle.codec.specs.Bytes.{with_bytes};
ghost use Rattle.codec.specs.Records.{records_of, bytes_of, refcounts, free_extents};
ghost use Rattle.lists.specs.Release.{release, unshared};
ghost use Rattle.lists.specs.Answer.{released_outcome, lengths_of, Releases};
ghost use Rattle.lists.specs.Steps.{measure_outcome, Writable};

use crate::carried::{Change, Pass};
use crate::measure::measured;
use crate::pass::pass;
use crate::{EditRefusal, Lengths};

// The first step of a release: asks 19, 21, 22 and 25, and says the bytes of the new counts and of the free extents. Writes nothing.
pub fn measure(counts: &[u8], startblock: u32, blockcount: u32) -> Result<Lengths, EditRefusal>
    ensures { released_outcome result ≡ lengths_of (measure_outcome counts.now startblock blockcount) }
{
    measured(counts, startblock, blockcount, Change::Lower)
}

// The second step: writes both lists, where the questions of the first hold and both fit.
pub fn write(counts: &[u8], startblock: u32, blockcount: u32, new: &mut [u8], free: &mut [u8])
    requires { Writable (records_of refcounts counts.now) startblock blockcount (length new.old) (length free.old) }
    ensures counts { new.new
        ≡ with_bytes new.old 0 (bytes_of refcounts (release startblock (startblock + blockcount) (records_of refcounts counts.now))) }
    ensures extents { free.new
        ≡ with_bytes free.old 0 (bytes_of free_extents (unshared (records_of refcounts counts.now) startblock blockcount)) }
{
    // the questions hold, so it refuses nothing
    let _ = pass(
        counts,
        startblock,
        blockcount,
        Change::Lower,
        new,
        free,
        Pass::Both,
    );
}

// Lets the blocks from `startblock` on go once: asks 19, 21, 22, 25 and 26, writes the new counts into `new` and the extents that are free
// again into `free`, and says both lengths in bytes. A refusal writes nothing.
pub fn release(
    counts: &[u8],
    startblock: u32,
    blockcount: u32,
    new: &mut [u8],
    free: &mut [u8],
) -> Result<Lengths, EditRefusal>
    ensures { Releases counts.now startblock blockcount result new.old new.new free.old free.new }
{
    let lengths = measure(counts, startblock, blockcount)?;
    if new.len() < lengths.counts || free.len() < lengths.free {
        return Err(EditRefusal::Room);
    }
    write(counts, startblock, blockcount, new, free);
    Ok(lengths)
}
