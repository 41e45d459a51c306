// The check of one block: questions 1 to 8, 30, 9 and 10 of docs/QUESTIONS.md, in this order.
#![tactic(auto, unfolding(crate::specs::Check::check_block))]

ghost use Rattle.std.specs.Prelude.{◌≡◌, true, false, ◌≤◌, length, MatchResult};
ghost use Rattle.blocks.specs.Geometry.{geometry_ok};
ghost use Rattle.blocks.specs.Offsets.{v4_header_len, v5_header_len};
ghost use Rattle.blocks.specs.Refusal.{field_number, field_values, refusal_number, refusal_values, checked_outcome};
ghost use Rattle.blocks.specs.Check.{check_block};
ghost use Rattle.blocks.specs.Inner.CheckParts.{content_outcome, identity_outcome};
ghost use Rattle.codec.specs.Told.{Tells};

use crate::geometry::{AgBlock, Geometry};
use crate::kind::{TreeKind, block_capacity, header_len};
use crate::offsets;
use crate::uuid::is_uuid;
use codec::crc::crc32c_with_zeroed_crc;
use codec::endian::{be16, be32, be64, le32};
use codec::refusal::Told;

// A field of the header that failed, with what was expected and what was found.
// A name beside a pair of numbers would be no plainer where a question is asked, and theorems of walks tell these seven cases apart.
#[derive(Clone, Copy, Debug, PartialEq, Eq)]
pub enum Field {
    Magic { expected: u64, found: u64 },
    Crc { expected: u64, found: u64 },
    Owner { expected: u64, found: u64 },
    Address { expected: u64, found: u64 },
    Sequence { expected: u64, found: u64 },
    Level { expected: u64, found: u64 },
    Records { expected: u64, found: u64 },
}

// Why a block is refused. The number of each case is `refusal_number` of specs/Refusal.antt; docs/QUESTIONS.md has its question.
#[derive(Clone, Copy, Debug, PartialEq, Eq)]
pub enum BlockRefusal {
    // the geometry is none: 1
    BadGeometry,
    // the buffer does not hold the header: 2
    Short,
    // the version has no such tree: 3
    NoTree,
    // the block is of another volume: 6
    Uuid,
    // 4, 5, 7 to 10 and 30
    BadField(Field),
}

// The number of the field's question, and its values.
impl From<Field> for Told {
    ghost from_gives = { λ f t. Tells t (field_number f) (field_values f) };

    fn from(f: Field) -> Told {
        match f {
            Field::Magic { expected, found } => Told::two(4, expected, found),
            Field::Crc { expected, found } => Told::two(5, expected, found),
            Field::Owner { expected, found } => Told::two(7, expected, found),
            Field::Address { expected, found } => Told::two(8, expected, found),
            Field::Sequence { expected, found } => Told::two(30, expected, found),
            Field::Level { expected, found } => Told::two(9, expected, found),
            Field::Records { expected, found } => Told::two(10, expected, found),
        }
    }
}

// The number of the question that failed, and its values.
impl From<BlockRefusal> for Told {
    ghost from_gives = { λ r t. Tells t (refusal_number r) (refusal_values r) };

    fn from(r: BlockRefusal) -> Told {
        match r {
            BlockRefusal::BadGeometry => Told::plain(1),
            BlockRefusal::Short => Told::plain(2),
            BlockRefusal::NoTree => Told::plain(3),
            BlockRefusal::Uuid => Told::plain(6),
            BlockRefusal::BadField(f) => Told::from(f),
        }
    }
}

// A header that has been read and checked.
#[derive(Clone, Copy, Debug, PartialEq, Eq)]
pub struct Header {
    pub level: u16,
    pub numrecs: u16,
    // the blocks before and after it on its level, as it names them
    pub leftsib: AgBlock,
    pub rightsib: AgBlock,
    // where the records or keys begin
    pub body: usize,
    // how many records or entries the block could hold
    pub maxrecs: usize,
}

// A question: where it does not hold the block is refused.
fn ask(holds: bool, refusal: BlockRefusal) -> Result<(), BlockRefusal>
    ensures { MatchResult result (λ _. holds ≡ true) (λ r. (holds ≡ false) × (r ≡ refusal)) }
{
    if holds { Ok(()) } else { Err(refusal) }
}

// A question on a field of the header.
fn ask_field(holds: bool, field: Field) -> Result<(), BlockRefusal>
    ensures { MatchResult result (λ _. holds ≡ true) (λ r. (holds ≡ false) × (r ≡ BlockRefusal.BadField field)) }
{
    ask(holds, BlockRefusal::BadField(field))
}

// Questions 9 and 10.
fn check_contents(g: Geometry, kind: TreeKind, level: u16, b: &[u8]) -> Result<Header, BlockRefusal>
    requires { v4_header_len ≤ length b.now }
    ensures { checked_outcome result ≡ content_outcome g kind level b.now }
{
    let expected = level as u64;
    let found = be16(b, offsets::LEVEL) as u64;
    ask_field(found == expected, Field::Level { expected, found })?;
    let maxrecs = block_capacity(kind, g.version, level, b.len());
    let numrecs = be16(b, offsets::NUMRECS);
    let expected = maxrecs as u64;
    let found = numrecs as u64;
    ask_field(found <= expected, Field::Records { expected, found })?;
    Ok(Header {
        level,
        numrecs,
        leftsib: AgBlock(be32(b, offsets::LEFT_SIBLING)),
        rightsib: AgBlock(be32(b, offsets::RIGHT_SIBLING)),
        body: header_len(g.version),
        maxrecs,
    })
}

// Questions 5 to 8 and 30, on version 5, then 9 and 10.
fn check_identity(
    g: Geometry,
    kind: TreeKind,
    block: AgBlock,
    level: u16,
    b: &[u8],
) -> Result<Header, BlockRefusal>
    requires { (geometry_ok g ≡ true) × (v5_header_len ≤ length b.now) }
    ensures { checked_outcome result ≡ identity_outcome g kind block.0 level b.now }
{
    let expected = crc32c_with_zeroed_crc(b, offsets::CRC) as u64;
    let found = le32(b, offsets::CRC) as u64;
    ask_field(found == expected, Field::Crc { expected, found })?;
    ask(is_uuid(b, offsets::UUID, g.meta_uuid), BlockRefusal::Uuid)?;
    let expected = g.agno as u64;
    let found = be32(b, offsets::OWNER) as u64;
    ask_field(found == expected, Field::Owner { expected, found })?;
    let expected = block.linear(g).address(g).0;
    let found = be64(b, offsets::BLKNO);
    ask_field(found == expected, Field::Address { expected, found })?;
    let expected = g.last_lsn;
    let found = be64(b, offsets::LSN);
    ask_field(found <= expected, Field::Sequence { expected, found })?;
    check_contents(g, kind, level, b)
}

// Questions 1 to 8, 30, 9 and 10 on a block of a tree: `block` is its number in the group, `level` the level it should have, `b` its bytes.
pub fn check_block(
    g: Geometry,
    kind: TreeKind,
    block: AgBlock,
    level: u16,
    b: &[u8],
) -> Result<Header, BlockRefusal>
    ensures { checked_outcome result ≡ check_block g kind block.0 level b.now }
{
    ask(g.is_ok(), BlockRefusal::BadGeometry)?;
    ask(header_len(g.version) <= b.len(), BlockRefusal::Short)?;
    ask(kind.is_in(g.version), BlockRefusal::NoTree)?;
    let expected = kind.magic(g.version) as u64;
    let found = be32(b, offsets::MAGIC) as u64;
    ask_field(found == expected, Field::Magic { expected, found })?;
    if g.version == 5 {
        check_identity(g, kind, block, level, b)
    } else {
        check_contents(g, kind, level, b)
    }
}
