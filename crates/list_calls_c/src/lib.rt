// What C calls of `list_calls`: each function calls the one of its name there, and promises the same.
#![tactic(auto)]

ghost use Rattle.std.specs.Prelude.{[], length};
ghost use Rattle.lists.specs.Edits.{insert_outcome, insert_shared_outcome, remove_outcome, release_outcome};
ghost use Rattle.groups.specs.LetGo.{let_go_outcome};
ghost use Rattle.groups.specs.TakeHeld.{take_held_outcome};
ghost use Rattle.interface.specs.Interface.{extent_of, Says};
ghost use Rattle.list_calls.specs.ListCalls.{EditSays, ReleaseSays, GroupEditSays, SheetSays};
ghost use Rattle.reasons.specs.Why.{explain_outcome};
ghost use Rattle.list_calls.specs.ExplainFigures.{explain_figures};
ghost use Rattle.sheets.specs.Sheet.{read_outcome, write_outcome};

use list_calls::{edits, explaining, sheet_calls};

// Takes an extent of which no block is held: questions 19, 20, 22, 23 and 26. The figure of a new list is its bytes.
#[unsafe(no_mangle)]
pub extern "C" fn kf_insert(
    old: &[u8],
    startblock: u32,
    blockcount: u32,
    owner: u64,
    offset: u64,
    new_map: &mut [u8],
    said: &mut [u64; 4],
) -> u32
    ensures { EditSays (insert_outcome old.now (extent_of startblock blockcount owner offset) (length new_map.old))
        result said.new new_map.old new_map.new }
{
    edits::kf_insert(old, startblock, blockcount, owner, offset, new_map, said)
}

// Takes an extent whose blocks others may hold: questions 19, 20, 22, 23 and 26. The counts are left alone: kf_take_held is the call for held
// blocks.
#[unsafe(no_mangle)]
pub extern "C" fn kf_insert_shared(
    old: &[u8],
    startblock: u32,
    blockcount: u32,
    owner: u64,
    offset: u64,
    new_map: &mut [u8],
    said: &mut [u64; 4],
) -> u32
    ensures { EditSays (insert_shared_outcome old.now (extent_of startblock blockcount owner offset) (length new_map.old))
        result said.new new_map.old new_map.new }
{
    edits::kf_insert_shared(old, startblock, blockcount, owner, offset, new_map, said)
}

// Gives an extent up: questions 19, 20, 22, 24 and 26.
#[unsafe(no_mangle)]
pub extern "C" fn kf_remove(
    old: &[u8],
    startblock: u32,
    blockcount: u32,
    owner: u64,
    offset: u64,
    new_map: &mut [u8],
    said: &mut [u64; 4],
) -> u32
    ensures { EditSays (remove_outcome old.now (extent_of startblock blockcount owner offset) (length new_map.old))
        result said.new new_map.old new_map.new }
{
    edits::kf_remove(old, startblock, blockcount, owner, offset, new_map, said)
}

// Lowers the counts over an extent: questions 19, 21, 22, 25 and 26. The figures are the bytes of the new counts and of the free extents.
#[unsafe(no_mangle)]
pub extern "C" fn kf_release(
    counts: &[u8],
    startblock: u32,
    blockcount: u32,
    new_counts: &mut [u8],
    free_extents: &mut [u8],
    said: &mut [u64; 4],
) -> u32
    ensures { ReleaseSays
        (release_outcome counts.now startblock blockcount (length new_counts.old) (length free_extents.old))
        result said.new new_counts.old new_counts.new free_extents.old free_extents.new }
{
    edits::kf_release(
        counts,
        startblock,
        blockcount,
        new_counts,
        free_extents,
        said,
    )
}

// The whole letting go: questions 19, 20, 22 and 24, then 19, 21 and 25, then 26. The figures are the bytes of the new reverse map, of the new
// counts and of the free extents.
#[unsafe(no_mangle)]
pub extern "C" fn kf_let_go(
    map: &[u8],
    counts: &[u8],
    startblock: u32,
    blockcount: u32,
    owner: u64,
    offset: u64,
    new_map: &mut [u8],
    new_counts: &mut [u8],
    free_extents: &mut [u8],
    said: &mut [u64; 4],
) -> u32
    ensures { GroupEditSays
        (let_go_outcome map.now counts.now (extent_of startblock blockcount owner offset)
        (length new_map.old) (length new_counts.old) (length free_extents.old))
        result said.new new_map.old new_map.new new_counts.old new_counts.new
        free_extents.old free_extents.new }
{
    edits::kf_let_go(
        map,
        counts,
        startblock,
        blockcount,
        owner,
        offset,
        new_map,
        new_counts,
        free_extents,
        said,
    )
}

// A take of blocks that others hold: questions 19 and 20, 19 and 21, then 22, 23, 25, 27, 28 and 26. The figures are the bytes of the new reverse
// map and of the new counts.
#[unsafe(no_mangle)]
pub extern "C" fn kf_take_held(
    map: &[u8],
    counts: &[u8],
    startblock: u32,
    blockcount: u32,
    owner: u64,
    offset: u64,
    new_map: &mut [u8],
    new_counts: &mut [u8],
    said: &mut [u64; 4],
) -> u32
    ensures { GroupEditSays
        (take_held_outcome map.now counts.now (extent_of startblock blockcount owner offset)
        (length new_map.old) (length new_counts.old))
        result said.new new_map.old new_map.new new_counts.old new_counts.new
        [] [] }
{
    edits::kf_take_held(
        map, counts, startblock, blockcount, owner, offset, new_map, new_counts, said,
    )
}

// Why a block of the extent is free now, still held, or staging, before the extent is let go: questions 19, 20, 22, 24, then 19, 21, 25 (only if the block is
// not under a staging record itself), then 31. The figures are 0, 1 or 2 for the three; the list that holds the deciding record, 0 where there is none, 1 the
// reverse map, 2 the counts; the byte of that list at which the record begins, and its length.
#[unsafe(no_mangle)]
pub extern "C" fn kf_explain(
    map: &[u8],
    counts: &[u8],
    startblock: u32,
    blockcount: u32,
    owner: u64,
    offset: u64,
    block: u32,
    said: &mut [u64; 4],
) -> u32
    ensures { Says explain_figures (explain_outcome map.now counts.now (extent_of startblock blockcount owner offset) block)
        result said.new }
{
    explaining::kf_explain(
        map, counts, startblock, blockcount, owner, offset, block, said,
    )
}

// The changes of a sheet: questions 32, 33 and 26. The figure is their bytes.
#[unsafe(no_mangle)]
pub extern "C" fn kf_read_sheet(sheet: &[u8], changes: &mut [u8], said: &mut [u64; 4]) -> u32
    ensures { SheetSays (read_outcome sheet.now (length changes.old)) result said.new
        changes.old changes.new }
{
    sheet_calls::kf_read_sheet(sheet, changes, said)
}

// The sheet of a list of changes: questions 33 and 26. The figure is its bytes.
#[unsafe(no_mangle)]
pub extern "C" fn kf_write_sheet(changes: &[u8], sheet: &mut [u8], said: &mut [u64; 4]) -> u32
    ensures { SheetSays (write_outcome changes.now (length sheet.old)) result said.new
        sheet.old sheet.new }
{
    sheet_calls::kf_write_sheet(changes, sheet, said)
}
