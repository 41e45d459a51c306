// A record of the reverse map: an extent, and what owns it.
#![tactic(auto, using(crate::proofs::RmapTests::exempt_is), unfolding(crate::specs::Rmaps::reserved, crate::specs::Rmaps::good, crate::specs::Rmaps::key_offset, crate::specs::Rmaps::before, crate::specs::Rmaps::follows, crate::specs::Rmaps::check_order))]

ghost use Rattle.std.specs.Prelude.{◌≡◌, ◌+◌, ◌≤◌, length};
ghost use Rattle.codec.specs.Bytes.{bytes_at, with_bytes};
ghost use Rattle.codec.specs.Records.{rmaps};
ghost use Rattle.codec.specs.Rmaps.{end, file_offset, flags, reserved, exempt, key_offset, before, good, follows, least, check_order};
ghost use Rattle.codec.specs.ListRefusal.{list_outcome};
ghost use Rattle.std.proofs.Common.{rules};

use crate::check::{END_LIMIT, ListRefusal};
use crate::endian::{be32, be64, put_be32, put_be64};
use crate::list::{self, Order, Record};

#[derive(Clone, Copy, Debug, PartialEq, Eq)]
pub struct Rmap {
    // In the group, as in every record of a group's tree.
    pub startblock: u32,
    pub blockcount: u32,
    // An inode number, or a reserved owner. A reserved owner is below 0 as a signed number, so it is 2^63 or more here.
    pub owner: u64,
    // The file offset in bits 0 to 53, and the flags above.
    pub offset: u64,
}

// The bytes of a record.
pub const RMAP_LEN: usize = 24;

// The first owner that is reserved.
pub const RESERVED: u64 = 0x8000_0000_0000_0000;

// Bit 62 of the offset, which marks a block of an inode's own map, and bit 61, which marks an extent never written.
pub const OFF_BMBT_BLOCK: u64 = 0x4000_0000_0000_0000;

pub const OFF_UNWRITTEN: u64 = 0x2000_0000_0000_0000;

// One more than the largest file offset.
pub const OFF_LIMIT: u64 = 0x40_0000_0000_0000;

impl Rmap {
    // One more than its last block.
    pub fn end(self) -> u64
        ensures { result ≡ end self }
    {
        self.startblock as u64 + self.blockcount as u64
    }

    // Bits 0 to 53 of the offset.
    pub fn file_offset(self) -> u64
        ensures { result ≡ file_offset self }
    {
        self.offset % OFF_LIMIT
    }

    // The bits above them.
    pub fn flags(self) -> u64
        ensures { result ≡ flags self }
    {
        self.offset / OFF_LIMIT
    }

    // Is its owner no inode?
    pub fn is_reserved(self) -> bool
        ensures { result ≡ reserved self.owner }
    {
        RESERVED <= self.owner
    }
}

// The record at `at` bytes into `buf`.
pub fn decode(buf: &[u8], at: usize) -> Rmap
    requires { at + rmaps.size ≤ length buf.now }
    ensures { result ≡ rmaps.decode (bytes_at buf.now at rmaps.size) }
{
    Rmap {
        startblock: be32(buf, at),
        blockcount: be32(buf, at + 4),
        owner: be64(buf, at + 8),
        offset: be64(buf, at + 16),
    }
}

// `r` written at `at` bytes into `buf`.
pub fn encode(buf: &mut [u8], at: usize, r: Rmap)
    requires { at + rmaps.size ≤ length buf.old }
    ensures { buf.new ≡ with_bytes buf.old at (rmaps.encode r) }
{
    put_be32(buf, at, r.startblock);
    put_be32(buf, at + 4, r.blockcount);
    put_be64(buf, at + 8, r.owner);
    put_be64(buf, at + 16, r.offset);
}

// Has the record no file offset: a reserved owner, or bit 62?
pub fn exempt(r: Rmap) -> bool
    ensures { result ≡ exempt r }
{
    r.is_reserved() || r.offset / OFF_BMBT_BLOCK % 2 == 1
}

// Is the extent good by itself? Question 22 of an extent, and a part of 20 of a list.
pub fn good(r: Rmap) -> bool
    ensures { result ≡ good r }
{
    0 < r.blockcount
        && r.end() <= END_LIMIT
        && (r.file_offset() + r.blockcount as u64 <= OFF_LIMIT || exempt(r))
}

// The offset without bit 61.
fn key_offset(o: u64) -> u64
    ensures { result ≡ key_offset o }
{
    o - OFF_UNWRITTEN * (o / OFF_UNWRITTEN % 2)
}

// Does r come before s in the order of the list? No `Ord`: it is not by bit 61 nor by the count, so two records neither of which comes first may differ.
pub fn comes_before(r: Rmap, s: Rmap) -> bool
    ensures { result ≡ before r s }
{
    (r.startblock, r.owner, key_offset(r.offset)) < (s.startblock, s.owner, key_offset(s.offset))
}

impl Record for Rmap {
    ghost kind = { rmaps };

    const LEN: usize = RMAP_LEN;

    ghost LEN = { rmaps.size };

    fn decode(buf: &[u8], at: usize) -> Rmap {
        decode(buf, at)
    }

    fn encode(buf: &mut [u8], at: usize, r: Rmap) {
        encode(buf, at, r)
    }

    ghost len_is = { Prim.search rules };

    ghost has_bytes = { Prim.search rules };
}

// By start, owner as unsigned, offset without bit 61; equals may stand side by side.
#[derive(Clone, Copy)]
struct ByKey;

impl Order for ByKey {
    type Item = Rmap;

    ghost is_good = { λ _. good };

    ghost may_follow = { λ _. follows };

    ghost least = { least };

    fn is_good(&self, r: Rmap) -> bool {
        good(r)
    }

    fn may_follow(&self, q: Rmap, r: Rmap) -> bool {
        !comes_before(r, q)
    }

    fn least(&self) -> Rmap {
        Rmap {
            startblock: 0,
            blockcount: 0,
            owner: 0,
            offset: 0,
        }
    }
}

// Questions 19 and 20 on a reverse map.
pub fn check_order(list: &[u8]) -> Result<usize, ListRefusal>
    ensures { list_outcome result ≡ check_order list.now }
{
    list::check_order(&ByKey, ListRefusal::RmapOrder, list)
}
