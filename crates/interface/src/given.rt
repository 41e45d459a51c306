// What a call is given as numbers.
ghost use Rattle.std.specs.Prelude.{◌≡◌};
ghost use Rattle.interface.specs.Interface.{geometry_of, kind_of, extent_of};

use blocks::geometry::Geometry;
use blocks::kind::TreeKind;
use codec::endian::put_be64;
use codec::rmap::Rmap;

// A geometry. The 16 bytes of the UUID are two big-endian numbers.
// The numbers come one by one, as the C interface has them.
pub fn geometry(
    version: u16,
    blocksize: u32,
    agblocks: u32,
    agno: u32,
    uuid_high: u64,
    uuid_low: u64,
    last_lsn: u64,
) -> Geometry
    ensures { result ≡ geometry_of version blocksize agblocks agno uuid_high uuid_low last_lsn }
{
    let mut uuid = [0u8; 16];
    put_be64(&mut uuid, 0, uuid_high);
    put_be64(&mut uuid, 8, uuid_low);
    Geometry {
        version,
        blocksize,
        agblocks,
        agno,
        meta_uuid: uuid,
        last_lsn,
    }
}

// A kind of tree: 0 is the reverse map, 2 free space by block and 3 free space by size; 1, and any other number, the counts.
// A number, as the C interface has it; a `From` would have to stand in `blocks`, which knows nothing of that interface.
pub fn tree_kind(kind: u32) -> TreeKind
    ensures { result ≡ kind_of kind }
{
    match kind {
        0 => TreeKind::Rmap,
        2 => TreeKind::ByBlock,
        3 => TreeKind::BySize,
        _ => TreeKind::Refcount,
    }
}

// The extent of an edit.
pub fn extent(startblock: u32, blockcount: u32, owner: u64, offset: u64) -> Rmap
    ensures { result ≡ extent_of startblock blockcount owner offset }
{
    Rmap {
        startblock,
        blockcount,
        owner,
        offset,
    }
}
