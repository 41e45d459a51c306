// The keys of a child in a node of the reverse map: the first record's, and the greatest high key of the records under the child, the last of
// equals (`EveryHighest` of specs/HighKeys.antt).
ghost use Rattle.std.specs.Prelude.{◌≡◌, true, ◌+◌, ◌/◌, ◌≤◌, ◌<◌, length};
ghost use Rattle.codec.specs.Bytes.{with_bytes};
ghost use Rattle.codec.specs.Records.{rmaps};
ghost use Rattle.codec.specs.Rmaps.{good};
ghost use Rattle.blocks.specs.Tree.{rmap_key_len};
ghost use Rattle.trees.specs.Keys.{key_bytes, high_key, key_below, greater, highest, rmap_keys, records_between, AllGood};

use blocks::kind::RMAP_KEY_LEN;
use codec::endian::{put_be32, put_be64};
use codec::rmap::{OFF_LIMIT, RMAP_LEN, Rmap, decode, exempt};

// A key: start, owner and the whole offset of a record.
#[derive(Clone, Copy)]
struct RmapKey {
    start: u32,
    owner: u64,
    offset: u64,
}

// The key of a record's last block (`EveryHighKey` of specs/HighKeys.antt).
fn high_key(r: Rmap) -> RmapKey
    requires { good r ≡ true }
    ensures { result ≡ high_key r }
{
    let more = r.blockcount - 1;
    let start = r.startblock + more;
    let offset = if exempt(r) {
        r.offset
    } else {
        r.offset + more as u64
    };
    RmapKey {
        start,
        owner: r.owner,
        offset,
    }
}

// Is j below k, by start, owner and file offset? No `Ord`, and so no `max`: it is not by the flags, so two keys neither of which is below the other may differ.
fn is_below(j: RmapKey, k: RmapKey) -> bool
    ensures { result ≡ key_below j k }
{
    (j.start, j.owner, j.offset % OFF_LIMIT) < (k.start, k.owner, k.offset % OFF_LIMIT)
}

// The greater of two keys, the later of equals.
fn greater_key(j: RmapKey, k: RmapKey) -> RmapKey
    ensures { result ≡ greater j k }
{
    if is_below(k, j) { j } else { k }
}

// The greatest high key of the records from `from` to `to`.
fn highest_key(list: &[u8], from: usize, to: usize) -> RmapKey
    requires { (from < to) × (to ≤ length list.now / rmaps.size) × AllGood list.now }
    ensures { result ≡ highest (records_between rmaps list.now from to) }
{
    let mut k = high_key(decode(list, from * RMAP_LEN));
    for i in from + 1..to {
        k = greater_key(k, high_key(decode(list, i * RMAP_LEN)));
    }
    k
}

fn put_key(b: &mut [u8], at: usize, k: RmapKey)
    requires { at + rmap_key_len ≤ length b.old }
    ensures { b.new ≡ with_bytes b.old at (key_bytes k) }
{
    put_be32(b, at, k.start);
    put_be64(b, at + 4, k.owner);
    put_be64(b, at + 12, k.offset);
}

// The keys of a child with the records from `from` to `to` under it.
pub(crate) fn put_rmap_keys(list: &[u8], from: usize, to: usize, b: &mut [u8], at: usize)
    requires from_lt_to { (from < to) × (to ≤ length list.now / rmaps.size) × AllGood list.now }
    requires rmap_key_len_in_bounds { at + (rmap_key_len + rmap_key_len) ≤ length b.old }
    ensures { b.new ≡ with_bytes b.old at (rmap_keys (records_between rmaps list.now from to)) }
{
    let r = decode(list, from * RMAP_LEN);
    let low = RmapKey {
        start: r.startblock,
        owner: r.owner,
        offset: r.offset,
    };
    let high = highest_key(list, from, to);
    put_key(b, at, low);
    put_key(b, at + RMAP_KEY_LEN, high);
}
