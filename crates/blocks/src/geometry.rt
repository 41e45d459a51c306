// What every call is given, and the three ways to say where a block lies. None of them stands for another: the functions here are the only
// way from one to the next.
#![tactic(auto, unfolding(crate::specs::Geometry::is_version, crate::specs::Geometry::is_block_size))]

ghost use Rattle.std.specs.Prelude.{◌≡◌, ◌*◌, ◌<◌, ◌^◌};
ghost use Rattle.blocks.specs.Geometry.{is_version, is_block_size, geometry_ok, linear_of, address_of};

#[derive(Clone, Copy, Debug, PartialEq, Eq)]
pub struct Geometry {
    // Any number, not an enum: question 1 asks that it is 4 or 5, and a narrower type would ask that of callers.
    pub version: u16,
    pub blocksize: u32,
    // The blocks of a group.
    pub agblocks: u32,
    // The group's number.
    pub agno: u32,
    // The volume's UUID, as every block of version 5 has it.
    pub meta_uuid: [u8; 16],
    // The sequence number of the last record in the volume's log: no block of version 5 has a higher one.
    pub last_lsn: u64,
}

// A block number in the group.
#[derive(Clone, Copy, Debug, PartialEq, Eq)]
pub struct AgBlock(pub u32);

// A linear block number of the volume.
#[derive(Clone, Copy)]
pub(crate) struct LinearBlock(u64);

// An address in units of 512 bytes.
#[derive(Clone, Copy)]
pub(crate) struct DiskAddress(pub(crate) u64);

// The block number that stands for no block: a sibling that is not there. A number and no Option, as headers and the C figures have it.
pub const NULL_AGBLOCK: u32 = 0xFFFF_FFFF;

fn is_version(n: u16) -> bool
    ensures { result ≡ is_version n }
{
    n == 4 || n == 5
}

// A power of two from 512 to 65,536.
fn is_block_size(n: u32) -> bool
    ensures { result ≡ is_block_size n }
{
    matches!(n, 512 | 1024 | 2048 | 4096 | 8192 | 16384 | 32768 | 65536)
}

impl Geometry {
    // Question 1. The product may not fit 64 bits, so the sum is compared with a quotient. That it was asked stands in contracts here, and in a type in the
    // crates above: `stamp` promises what it does of a plain geometry.
    pub fn is_ok(self) -> bool
        ensures { result ≡ geometry_ok self }
    {
        if !is_version(self.version) || !is_block_size(self.blocksize) {
            return false;
        }
        AgBlock(u32::MAX).linear(self).0 <= u64::MAX / self.blocksize as u64
    }
}

impl AgBlock {
    // The same block, counted through the volume.
    pub(crate) fn linear(self, g: Geometry) -> LinearBlock
        ensures { result.0 ≡ linear_of g self.0 }
    {
        LinearBlock(g.agno as u64 * g.agblocks as u64 + self.0 as u64)
    }
}

impl LinearBlock {
    // The block's address. Question 1 leaves room for that of every block of the group.
    pub(crate) fn address(self, g: Geometry) -> DiskAddress
        requires { self.0 * g.blocksize < 2 ^ 64 }
        ensures { result.0 ≡ address_of g self.0 }
    {
        DiskAddress(self.0 * g.blocksize as u64 / 512)
    }
}
