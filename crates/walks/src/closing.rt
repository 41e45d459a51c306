// How a walk closes: what a finished one answers and leaves, and that a refused one leaves zeros.
ghost use Rattle.std.specs.Prelude.{◌≡◌, ◌/◌, ◌≤◌, length, take};
ghost use Rattle.codec.specs.Bytes.{with_bytes};
ghost use Rattle.blocks.specs.Tree.{record_len};
ghost use Rattle.walks.specs.Memory.{zeros};
ghost use Rattle.walks.specs.Walk.{by_level};
ghost use Rattle.walks.specs.OneVisit.{seen_of};

use crate::by_level::order;
use crate::visit::Count;
use crate::walk::Walked;
use blocks::kind::TreeKind;

// A walk that has read its last block.
pub fn read_all(kind: TreeKind, c: Count) -> Walked
    ensures { result ≡ record { visits = c.visits; records = c.bytes / record_len kind; bytes = c.bytes } }
{
    Walked {
        visits: c.visits,
        records: c.bytes / kind.record_len(),
        bytes: c.bytes,
    }
}

// After a finished walk: the block list by level, and the level scratch zero.
pub fn finish(visits: usize, levels: u64, scratch: &mut [u64], blocks: &mut [u32])
    requires { (visits ≤ length scratch.old) × (visits ≤ length blocks.old) }
    ensures { (blocks.new ≡ with_bytes blocks.old 0 (by_level levels (seen_of (take visits scratch.old))))
        × (scratch.new ≡ zeros scratch.old) }
{
    order(&scratch[..visits], levels, blocks);
    scratch.fill(0); // no visit is left in it
}

// After a refused walk: zeros throughout.
pub fn wipe(scratch: &mut [u64], blocks: &mut [u32], out: &mut [u8])
    ensures { (scratch.new ≡ zeros scratch.old) × (blocks.new ≡ zeros blocks.old)
        × (out.new ≡ zeros out.old) }
{
    scratch.fill(0); // nor in this one
    blocks.fill(0);
    out.fill(0);
}
