// The block list of a walk: blocks by level, leaves first, each level in the order met.
ghost use Rattle.std.specs.Prelude.{◌≡◌, ◌+◌, ◌≤◌, length};
ghost use Rattle.codec.specs.Bytes.{with_bytes};
ghost use Rattle.walks.specs.Walk.{by_level};
ghost use Rattle.walks.specs.OneVisit.{seen_of};
ghost use Rattle.walks.specs.Inner.WalkState.{level_in};

// A place of the level scratch is level × LEVEL_STEP + block.
// A visit is one number, not a struct: the level scratch is lent as places of 64 bits (12).
pub(crate) const LEVEL_STEP: u64 = 0x1_0000_0000;

// Stores the blocks of one level, in the order met, from a place of the list on; returns the place after them.
fn gather(seen: &[u64], level: u64, list: &mut [u32], at: usize) -> usize
    requires { at + length (level_in level seen.now) ≤ length list.old }
    ensures { (result ≡ at + length (level_in level seen.now)) × (list.new ≡ with_bytes list.old at (level_in level seen.now)) }
{
    // counted by hand: it moves at the blocks of the level alone, and the next level goes on from it
    let mut k = at;
    for place in seen {
        if *place / LEVEL_STEP == level {
            list[k] = (*place % LEVEL_STEP) as u32;
            k += 1;
        }
    }
    k
}

// Stores the blocks visited by level, leaves first.
pub(crate) fn order(seen: &[u64], levels: u64, list: &mut [u32])
    requires { length seen.now ≤ length list.old }
    ensures { list.new ≡ with_bytes list.old 0 (by_level levels (seen_of seen.now)) }
{
    let mut at = 0;
    for level in 0..levels {
        at = gather(seen, level, list, at);
    }
}
