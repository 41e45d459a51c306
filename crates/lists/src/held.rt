// Is every block of an extent held?
ghost use Rattle.std.specs.Prelude.{◌≡◌, true};
ghost use Rattle.codec.specs.Records.{records_of, rmaps};
ghost use Rattle.codec.specs.Rmaps.{accepted};
ghost use Rattle.lists.specs.Held.{held_all};

use codec::rmap::{RMAP_LEN, decode};

// Does a record of a list in order lie over each block of the extent? `reach` is the first block from its start on that none so far lies over.
// It is lent bytes in order and no `Ordered`, which is this crate's own: who calls it from elsewhere has bytes.
pub fn held(list: &[u8], startblock: u32, blockcount: u32) -> bool
    requires { accepted (records_of rmaps list.now) ≡ true }
    ensures { result ≡ held_all (records_of rmaps list.now) startblock blockcount }
{
    let end = startblock as u64 + blockcount as u64;
    let mut reach = startblock as u64;
    for i in 0..list.len() / RMAP_LEN {
        let r = decode(list, i * RMAP_LEN);
        if reach < r.startblock as u64 {
            return end <= reach;
        }
        reach = reach.max(r.end());
    }
    end <= reach
}
