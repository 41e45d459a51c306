// Calls that edit a list. The old list is read, the new one written to another buffer, and a refusal writes nothing but the figures.
ghost use Rattle.std.specs.Prelude.{[], length};
ghost use Rattle.lists.specs.Edits.{insert_outcome, insert_shared_outcome, remove_outcome, release_outcome};
ghost use Rattle.groups.specs.LetGo.{let_go_outcome};
ghost use Rattle.groups.specs.TakeHeld.{take_held_outcome};
ghost use Rattle.interface.specs.Interface.{extent_of};
ghost use Rattle.list_calls.specs.ListCalls.{EditSays, ReleaseSays, GroupEditSays};

use crate::figures::{group_figures, length_figures, release_figures};
use groups::let_go::let_go;
use groups::take_held::take_held;
use interface::answer::{answer_of, say};
use interface::given::extent;
use lists::refcounts::release;
use lists::rmap_edits::{insert, insert_shared, remove};

// Takes an extent of which no block is held: questions 19, 20, 22, 23 and 26. The figure of a new list is its bytes.
#[unsafe(no_mangle)]
pub extern "C" fn kf_insert(
    old: &[u8],
    startblock: u32,
    blockcount: u32,
    owner: u64,
    offset: u64,
    new_map: &mut [u8],
    said: &mut [u64; 4],
) -> u32
    ensures { EditSays (insert_outcome old.now (extent_of startblock blockcount owner offset) (length new_map.old))
        result said.new new_map.old new_map.new }
{
    let x = extent(startblock, blockcount, owner, offset);
    say(answer_of(insert(old, x, new_map), length_figures), said)
}

// Takes an extent whose blocks others may hold: questions 19, 20, 22, 23 and 26. The counts are left alone: kf_take_held is the call for held
// blocks.
#[unsafe(no_mangle)]
pub extern "C" fn kf_insert_shared(
    old: &[u8],
    startblock: u32,
    blockcount: u32,
    owner: u64,
    offset: u64,
    new_map: &mut [u8],
    said: &mut [u64; 4],
) -> u32
    ensures { EditSays (insert_shared_outcome old.now (extent_of startblock blockcount owner offset) (length new_map.old))
        result said.new new_map.old new_map.new }
{
    let x = extent(startblock, blockcount, owner, offset);
    say(
        answer_of(insert_shared(old, x, new_map), length_figures),
        said,
    )
}

// Gives an extent up: questions 19, 20, 22, 24 and 26.
#[unsafe(no_mangle)]
pub extern "C" fn kf_remove(
    old: &[u8],
    startblock: u32,
    blockcount: u32,
    owner: u64,
    offset: u64,
    new_map: &mut [u8],
    said: &mut [u64; 4],
) -> u32
    ensures { EditSays (remove_outcome old.now (extent_of startblock blockcount owner offset) (length new_map.old))
        result said.new new_map.old new_map.new }
{
    let x = extent(startblock, blockcount, owner, offset);
    say(answer_of(remove(old, x, new_map), length_figures), said)
}

// Lowers the counts over an extent: questions 19, 21, 22, 25 and 26. The figures are the bytes of the new counts and of the free extents.
#[unsafe(no_mangle)]
pub extern "C" fn kf_release(
    counts: &[u8],
    startblock: u32,
    blockcount: u32,
    new_counts: &mut [u8],
    free_extents: &mut [u8],
    said: &mut [u64; 4],
) -> u32
    ensures { ReleaseSays
        (release_outcome counts.now startblock blockcount (length new_counts.old) (length free_extents.old))
        result said.new new_counts.old new_counts.new free_extents.old free_extents.new }
{
    let released = release(counts, startblock, blockcount, new_counts, free_extents);
    say(answer_of(released, release_figures), said)
}

// The whole letting go: questions 19, 20, 22 and 24, then 19, 21 and 25, then 26. The figures are the bytes of the new reverse map, of the new
// counts and of the free extents.
#[unsafe(no_mangle)]
pub extern "C" fn kf_let_go(
    map: &[u8],
    counts: &[u8],
    startblock: u32,
    blockcount: u32,
    owner: u64,
    offset: u64,
    new_map: &mut [u8],
    new_counts: &mut [u8],
    free_extents: &mut [u8],
    said: &mut [u64; 4],
) -> u32
    ensures { GroupEditSays
        (let_go_outcome map.now counts.now (extent_of startblock blockcount owner offset)
        (length new_map.old) (length new_counts.old) (length free_extents.old))
        result said.new new_map.old new_map.new new_counts.old new_counts.new
        free_extents.old free_extents.new }
{
    let x = extent(startblock, blockcount, owner, offset);
    let edited = let_go(map, counts, x, new_map, new_counts, free_extents);
    say(answer_of(edited, group_figures), said)
}

// A take of blocks that others hold: questions 19 and 20, 19 and 21, then 22, 23, 25, 27, 28 and 26. The figures are the bytes of the new reverse
// map and of the new counts.
#[unsafe(no_mangle)]
pub extern "C" fn kf_take_held(
    map: &[u8],
    counts: &[u8],
    startblock: u32,
    blockcount: u32,
    owner: u64,
    offset: u64,
    new_map: &mut [u8],
    new_counts: &mut [u8],
    said: &mut [u64; 4],
) -> u32
    ensures { GroupEditSays
        (take_held_outcome map.now counts.now (extent_of startblock blockcount owner offset)
        (length new_map.old) (length new_counts.old))
        result said.new new_map.old new_map.new new_counts.old new_counts.new
        [] [] }
{
    let x = extent(startblock, blockcount, owner, offset);
    let edited = take_held(map, counts, x, new_map, new_counts);
    say(answer_of(edited, group_figures), said)
}
