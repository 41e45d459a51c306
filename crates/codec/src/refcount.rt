// A record of the shared counts: an extent, and how many files hold it.
#![tactic(auto, unfolding(crate::specs::Refcounts::staging, crate::specs::Refcounts::good, crate::specs::Refcounts::follows, crate::specs::Refcounts::check_order))]

ghost use Rattle.std.specs.Prelude.{◌≡◌, ◌+◌, ◌≤◌, length};
ghost use Rattle.codec.specs.Bytes.{bytes_at, with_bytes};
ghost use Rattle.codec.specs.Records.{refcounts};
ghost use Rattle.codec.specs.Refcounts.{staging, block, end, good, follows, least, check_order};
ghost use Rattle.codec.specs.ListRefusal.{list_outcome};
ghost use Rattle.std.proofs.Common.{rules};

use crate::check::{END_LIMIT, ListRefusal};
use crate::endian::{be32, put_be32};
use crate::list::{self, Order, Record};

#[derive(Clone, Copy, Debug, PartialEq, Eq)]
pub struct Refcount {
    // As stored: bit 31 marks a staging extent of a copy on write, and the rest is a block of the group.
    pub startblock: u32,
    pub blockcount: u32,
    pub refcount: u32,
}

// The bytes of a record.
pub const REFCOUNT_LEN: usize = 12;

// Bit 31 of the start.
pub const COW_FLAG: u32 = 0x8000_0000;

// The most owners that a record can tell of.
pub const MAXREFCOUNT: u32 = 0xFFFF_FFFF;

impl Refcount {
    // Does it stage a copy on write?
    pub fn is_staging(self) -> bool
        ensures { result ≡ staging self }
    {
        COW_FLAG <= self.startblock
    }

    // Its first block.
    pub fn block(self) -> u32
        ensures { result ≡ block self }
    {
        self.startblock % COW_FLAG
    }

    // One more than its last block.
    pub fn end(self) -> u64
        ensures { result ≡ end self }
    {
        self.block() as u64 + self.blockcount as u64
    }
}

// The record at `at` bytes into `buf`.
pub fn decode(buf: &[u8], at: usize) -> Refcount
    requires { at + refcounts.size ≤ length buf.now }
    ensures { result ≡ refcounts.decode (bytes_at buf.now at refcounts.size) }
{
    Refcount {
        startblock: be32(buf, at),
        blockcount: be32(buf, at + 4),
        refcount: be32(buf, at + 8),
    }
}

// `r` written at `at` bytes into `buf`.
pub fn encode(buf: &mut [u8], at: usize, r: Refcount)
    requires { at + refcounts.size ≤ length buf.old }
    ensures { buf.new ≡ with_bytes buf.old at (refcounts.encode r) }
{
    put_be32(buf, at, r.startblock);
    put_be32(buf, at + 4, r.blockcount);
    put_be32(buf, at + 8, r.refcount);
}

// Is the record good by itself?
pub fn good(r: Refcount) -> bool
    ensures { result ≡ good r }
{
    if END_LIMIT < r.end() || r.blockcount == 0 {
        return false;
    }
    if r.is_staging() {
        r.refcount == 1
    } else {
        2 <= r.refcount
    }
}

// May r stand right after q?
pub fn follows(q: Refcount, r: Refcount) -> bool
    ensures { result ≡ follows q r }
{
    if q.is_staging() == r.is_staging() {
        q.end() <= r.block() as u64
    } else {
        r.is_staging()
    }
}

impl Record for Refcount {
    ghost kind = { refcounts };

    const LEN: usize = REFCOUNT_LEN;

    ghost LEN = { refcounts.size };

    fn decode(buf: &[u8], at: usize) -> Refcount {
        decode(buf, at)
    }

    fn encode(buf: &mut [u8], at: usize, r: Refcount) {
        encode(buf, at, r)
    }

    ghost len_is = { Prim.search rules };

    ghost has_bytes = { Prim.search rules };
}

// Shared before staging, none starting before its predecessor of the same kind ends.
#[derive(Clone, Copy)]
struct ByKind;

impl Order for ByKind {
    type Item = Refcount;

    ghost is_good = { λ _. good };

    ghost may_follow = { λ _. follows };

    ghost least = { least };

    fn is_good(&self, r: Refcount) -> bool {
        good(r)
    }

    fn may_follow(&self, q: Refcount, r: Refcount) -> bool {
        follows(q, r)
    }

    fn least(&self) -> Refcount {
        Refcount {
            startblock: 0,
            blockcount: 0,
            refcount: 0,
        }
    }
}

// Questions 19 and 21 on a list of shared counts.
pub fn check_order(list: &[u8]) -> Result<usize, ListRefusal>
    ensures { list_outcome result ≡ check_order list.now }
{
    list::check_order(&ByKind, ListRefusal::ExtentOrder, list)
}
