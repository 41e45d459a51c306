// A reverse map in order: its records by number, the place of a record, and a record joined to one of them.
ghost use Rattle.std.specs.Prelude.{◌≡◌, true, ◌+◌, ◌/◌, ◌%◌, ◌*◌, ◌^◌, ◌≤◌, ◌<◌, ltb, length};
ghost use Rattle.codec.specs.Accepted.{end_limit};
ghost use Rattle.codec.specs.Bytes.{bytes_at};
ghost use Rattle.codec.specs.Records.{records_of, rmaps};
ghost use Rattle.codec.specs.Rmaps.{end, good, accepted};
ghost use Rattle.lists.specs.RmapEdits.{index_where, joined};
ghost use Rattle.lists.specs.Inner.Searches.{seat};
ghost use Rattle.lists.specs.Inner.Splicing.{join_at};

use crate::search::continues;
use codec::rmap::{RMAP_LEN, Rmap, comes_before, decode};

// The bytes of a reverse map of which 19 and 20 hold.
#[derive(Clone, Copy)]
pub(crate) struct Ordered<'a> {
    pub list: &'a [u8],
    ghost whole: { length list.now % rmaps.size ≡ 0 },
    ghost in_order: { accepted (records_of rmaps list.now) ≡ true },
}

// Two records that continue one another as one: the start and the whole offset of the lower.
fn join(r: Rmap, s: Rmap) -> Rmap
    requires { r.blockcount + s.blockcount < 2 ^ 32 }
    ensures { result ≡ joined r s }
{
    Rmap {
        blockcount: r.blockcount + s.blockcount,
        ..r
    }
}

impl Ordered<'_> {
    // How many records it has.
    pub fn len(&self) -> usize
        ensures { result ≡ length self.now.list.now / rmaps.size }
    {
        self.list.len() / RMAP_LEN
    }

    // The record i.
    pub fn at(&self, i: usize) -> Rmap
        requires { i < length self.now.list.now / rmaps.size }
        ensures { result ≡ rmaps.decode (bytes_at self.now.list.now (i * rmaps.size) rmaps.size) }
    {
        decode(self.list, i * RMAP_LEN)
    }

    // The place of z, searched for by halves.
    pub fn seat(&self, z: Rmap) -> usize
        ensures { result ≡ seat z (records_of rmaps self.now.list.now) }
    {
        let records: &[[u8; RMAP_LEN]] = self.list.as_chunks().0;
        records.partition_point(|r| comes_before(decode(r, 0), z))
    }

    // The first record that starts after x.
    pub fn after(&self, x: Rmap) -> usize
        requires { good x ≡ true }
        ensures { result ≡ index_where (λ r. ltb x.startblock r.startblock) (records_of rmaps self.now.list.now) }
    {
        self.seat(Rmap {
            startblock: x.startblock + 1,
            blockcount: 0,
            owner: 0,
            offset: 0,
        })
    }

    // x joined to the record i, behind it or before it, where one continues the other.
    pub fn join(&self, behind: bool, i: usize, x: Rmap) -> Option<Rmap>
        requires { end x ≤ end_limit }
        ensures { result ≡ join_at behind (records_of rmaps self.now.list.now) i x }
    {
        if self.len() <= i {
            return None;
        }
        let r = self.at(i);
        let low = if behind { r } else { x };
        let high = if behind { x } else { r };
        if !continues(low, high) {
            return None;
        }
        Some(join(low, high))
    }
}
