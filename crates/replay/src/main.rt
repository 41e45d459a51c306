// Replays cases from standard input and compares answers, figures and every byte of lent memory with those that the Rust original gave, or a
// definition where it has no such call, or, for trees of real volumes, with what another tool printed. docs/REPLAY.md has the layout of a case
// and says how the cases were made.
#![tactic(auto)]

use codec::endian::{be32, be64, put_be64};
use list_calls::edits::{
    kf_insert, kf_insert_shared, kf_let_go, kf_release, kf_remove, kf_take_held,
};
use list_calls::explaining::kf_explain;
use list_calls::sheet_calls::{kf_read_sheet, kf_write_sheet};
use show::lines::{newline, number as print_number};
use show::places::{filled, throughout};
use tree_calls::block_calls::{kf_check_block, kf_crc32c, kf_crc32c_singly};
use tree_calls::list_checks::{
    kf_check_by_block, kf_check_by_size, kf_check_refcounts, kf_check_rmaps, kf_same_extents,
};
use tree_calls::whole_trees::{
    kf_build, kf_lookup, kf_plan, kf_walk, kf_walk_linked, kf_walk_textbook,
};

// Number i of some: each has 4 bytes.
fn number(bytes: &[u8], i: usize) -> u32 {
    if i < 0x1_0000_0000 {
        let at = i * 4;
        if at + 4 <= bytes.len() {
            return be32(bytes, at);
        }
    }
    0
}

// Numbers i and i + 1 as one.
fn wide(bytes: &[u8], i: usize) -> u64 {
    if i < 0x1_0000_0000 {
        let at = i * 4;
        if at + 8 <= bytes.len() {
            return be64(bytes, at);
        }
    }
    0
}

// A number of 16 bits.
fn narrow(bytes: &[u8], i: usize) -> u16 {
    (number(bytes, i) % 0x1_0000) as u16
}

// Reads the next bytes of the case into all of `buf`.
fn take(buf: &mut [u8]) -> bool {
    let n = buf.len();
    io::read_full(0, buf) == n
}

// Does `buf` hold the bytes that come next in the case?
fn as_due(buf: &[u8], due: &mut [u8]) -> bool {
    let Some(part) = due.get_mut(..buf.len()) else {
        return false;
    };
    take(part) && *buf == *part
}

// A call that says four figures: are its answer and its figures those of the case?
fn says_as_due<C: FnOnce(&mut [u64; 4]) -> u32>(head: &[u8], call: C) -> bool
    requires { C.IsAlwaysCallable call }
{
    let mut said = [0xA5u64; 4];
    let answer = call(&mut said);
    let due = [wide(head, 2), wide(head, 4), wide(head, 6), wide(head, 8)];
    answer == number(head, 1) && said == due
}

// The geometry of a case, and its kind of tree.
#[derive(Clone, Copy)]
struct Group {
    version: u16,
    blocksize: u32,
    agblocks: u32,
    agno: u32,
    uuid_high: u64,
    uuid_low: u64,
    last_lsn: u64,
    kind: u32,
}

fn group_of(head: &[u8]) -> Group {
    Group {
        version: narrow(head, 10),
        blocksize: number(head, 11),
        agblocks: number(head, 12),
        agno: number(head, 13),
        uuid_high: wide(head, 14),
        uuid_low: wide(head, 16),
        last_lsn: wide(head, 32),
        kind: number(head, 18),
    }
}

// The extent of a case.
#[derive(Clone, Copy)]
struct Extent {
    start: u32,
    count: u32,
    owner: u64,
    offset: u64,
}

fn extent_of(head: &[u8]) -> Extent {
    Extent {
        start: number(head, 19),
        count: number(head, 20),
        owner: wide(head, 21),
        offset: wide(head, 23),
    }
}

// The check, and questions 19 to 21.
fn on_list(head: &[u8], call: u32, list: &[u8]) -> bool {
    let answer = match call {
        1 => kf_crc32c(list),
        2 => kf_check_rmaps(list),
        3 => kf_check_refcounts(list),
        19 => kf_check_by_block(list),
        20 => kf_check_by_size(list),
        _ => kf_crc32c_singly(list),
    };
    answer == number(head, 1)
}

fn on_two_lists(head: &[u8], by_block: &[u8], by_size: &[u8]) -> bool {
    says_as_due(head, |said| kf_same_extents(by_block, by_size, said))
}

fn on_block(head: &[u8], block: &[u8]) -> bool {
    let g = group_of(head);
    says_as_due(head, |said| {
        kf_check_block(
            g.version,
            g.blocksize,
            g.agblocks,
            g.agno,
            g.uuid_high,
            g.uuid_low,
            g.last_lsn,
            g.kind,
            number(head, 19),
            narrow(head, 20),
            block,
            said,
        )
    })
}

fn levels_as_due(due: &[u8], levels: [u64; 9]) -> bool {
    let blocks = [
        wide(due, 0),
        wide(due, 2),
        wide(due, 4),
        wide(due, 6),
        wide(due, 8),
        wide(due, 10),
        wide(due, 12),
        wide(due, 14),
        wide(due, 16),
    ];
    levels == blocks
}

fn on_plan(head: &[u8], due: &[u8]) -> bool {
    let mut levels = [0xA5A5A5A5A5A5A5A5u64; 9];
    let g = group_of(head);
    let so = says_as_due(head, |said| {
        kf_plan(
            g.version,
            g.blocksize,
            g.agblocks,
            g.agno,
            g.uuid_high,
            g.uuid_low,
            g.last_lsn,
            g.kind,
            wide(head, 21),
            &mut levels,
            said,
        )
    });
    levels_as_due(due, levels) && so
}

// Puts numbers of 4 bytes into a list.
fn spread(bytes: &[u8], list: &mut [u32]) {
    for (place, number) in list.iter_mut().zip(bytes.chunks_exact(4)) {
        *place = be32(number, 0);
    }
}

fn on_build(head: &[u8], list: &[u8], bytes: &[u8], out: &mut [u8], all: &mut [u32]) -> bool {
    let Some(numbers) = all.get_mut(..bytes.len() / 4) else {
        return false;
    };
    spread(bytes, numbers);
    let g = group_of(head);
    says_as_due(head, |said| {
        kf_build(
            g.version,
            g.blocksize,
            g.agblocks,
            g.agno,
            g.uuid_high,
            g.uuid_low,
            g.last_lsn,
            g.kind,
            list,
            numbers,
            out,
            said,
        )
    })
}

// Are these the numbers of 4 bytes?
fn numbers_as_due(list: &[u32], due: &[u8]) -> bool {
    for (number, bytes) in list.iter().zip(due.chunks_exact(4)) {
        if *number != be32(bytes, 0) {
            return false;
        }
    }
    true
}

// What a call leaves in the scratch of a case: zeros, or what was there before it.
fn left_by(head: &[u8]) -> u32 {
    if number(head, 29) == 0 { 0xA5A5A5A5 } else { 0 }
}

// A walk by whichever of the three calls it is, and what it leaves in both scratches.
fn walk(
    head: &[u8],
    image: &[u8],
    due: &[u8],
    stack: &mut [u32],
    scratch: &mut [u64],
    blocks: &mut [u32],
    records: &mut [u8],
) -> bool {
    let g = group_of(head);
    let root = number(head, 19);
    let levels = number(head, 20);
    let so = says_as_due(head, |said| match number(head, 0) {
        22 | 23 => kf_walk_textbook(
            g.version,
            g.blocksize,
            g.agblocks,
            g.agno,
            g.uuid_high,
            g.uuid_low,
            g.last_lsn,
            g.kind,
            image,
            root,
            levels,
            scratch,
            blocks,
            records,
            said,
        ),
        16 | 17 => kf_walk_linked(
            g.version,
            g.blocksize,
            g.agblocks,
            g.agno,
            g.uuid_high,
            g.uuid_low,
            g.last_lsn,
            g.kind,
            image,
            root,
            levels,
            stack,
            scratch,
            blocks,
            records,
            said,
        ),
        _ => kf_walk(
            g.version,
            g.blocksize,
            g.agblocks,
            g.agno,
            g.uuid_high,
            g.uuid_low,
            g.last_lsn,
            g.kind,
            image,
            root,
            levels,
            stack,
            scratch,
            blocks,
            records,
            said,
        ),
    });
    let left = left_by(head);
    throughout(stack, left) && throughout(scratch, left as u64) && numbers_as_due(blocks, due) && so
}

// A walk, with stack, scratch and block list of the lengths that the case says.
fn on_walk(head: &[u8], image: &[u8], due: &[u8], records: &mut [u8]) -> bool {
    let mut stack = [0xA5A5A5A5u32; 4096];
    let mut scratch = [0xA5A5A5A5u64; 512];
    let mut blocks = [0xA5A5A5A5u32; 512];
    let (Some(stack), Some(scratch), Some(blocks)) = (
        stack.get_mut(..number(head, 30) as usize),
        scratch.get_mut(..number(head, 31) as usize),
        blocks.get_mut(..due.len() / 4),
    ) else {
        return false;
    };
    walk(head, image, due, stack, scratch, blocks, records)
}

// Reads a block to its place in an image, which comes before its bytes.
fn take_block(image: &mut [u8], size: u32) -> bool {
    let mut bytes = [0u8; 4];
    if !take(&mut bytes) {
        return false;
    }
    let at = number(&bytes, 0) as usize;
    match image.get_mut(at..at + (size as usize)) {
        Some(block) => take(block),
        None => false,
    }
}

fn take_blocks(image: &mut [u8], size: u32, n: u32) -> bool {
    for _ in 0..n {
        if !take_block(image, size) {
            return false;
        }
    }
    true
}

// A walk over the image of a real group, whose blocks are given one by one.
fn on_real_walk(head: &[u8], due: &[u8], records: &mut [u8]) -> bool {
    // 1,460 blocks of 2,048 bytes
    let mut image = filled::<u8, 2990080>(0);
    take_blocks(&mut image, number(head, 11), number(head, 21))
        && on_walk(head, &image, due, records)
}

// The answers of a lookup as 8 bytes each, as many as there is room for.
fn put_answers(answers: &[u64], out: &mut [u8]) {
    for (place, answer) in out.chunks_exact_mut(8).zip(answers) {
        put_be64(place, 0, *answer);
    }
}

// A lookup, and what it leaves on the stack.
fn lookup(
    head: &[u8],
    image: &[u8],
    asked: &[u32],
    stack: &mut [u32],
    answers: &mut [u64],
) -> bool {
    let g = group_of(head);
    let so = says_as_due(head, |said| {
        kf_lookup(
            g.version,
            g.blocksize,
            g.agblocks,
            g.agno,
            g.uuid_high,
            g.uuid_low,
            g.last_lsn,
            image,
            number(head, 19),
            number(head, 20),
            asked,
            stack,
            answers,
            said,
        )
    });
    throughout(stack, left_by(head)) && so
}

// A lookup, with stack and answers of the lengths that the case says.
fn on_lookup(head: &[u8], image: &[u8], bytes: &[u8], out: &mut [u8], all: &mut [u32]) -> bool {
    let mut stack = [0xA5A5A5A5u32; 4096];
    let mut answers = [0xA5A5A5A5A5A5A5A5u64; 64];
    let (Some(asked), Some(stack), Some(answers)) = (
        all.get_mut(..bytes.len() / 4),
        stack.get_mut(..number(head, 30) as usize),
        answers.get_mut(..out.len() / 8),
    ) else {
        return false;
    };
    spread(bytes, asked);
    let so = lookup(head, image, asked, stack, answers);
    put_answers(answers, out);
    so
}

fn on_edit(head: &[u8], call: u32, old: &[u8], new: &mut [u8]) -> bool {
    let x = extent_of(head);
    says_as_due(head, |said| match call {
        8 => kf_insert(old, x.start, x.count, x.owner, x.offset, new, said),
        9 => kf_insert_shared(old, x.start, x.count, x.owner, x.offset, new, said),
        _ => kf_remove(old, x.start, x.count, x.owner, x.offset, new, said),
    })
}

fn on_release(head: &[u8], old: &[u8], new: &mut [u8], free: &mut [u8]) -> bool {
    let x = extent_of(head);
    says_as_due(head, |said| {
        kf_release(old, x.start, x.count, new, free, said)
    })
}

fn on_let_go(
    head: &[u8],
    map: &[u8],
    counts: &[u8],
    new_map: &mut [u8],
    new_counts: &mut [u8],
    free: &mut [u8],
) -> bool {
    let x = extent_of(head);
    says_as_due(head, |said| {
        kf_let_go(
            map, counts, x.start, x.count, x.owner, x.offset, new_map, new_counts, free, said,
        )
    })
}

fn on_take_held(
    head: &[u8],
    map: &[u8],
    counts: &[u8],
    new_map: &mut [u8],
    new_counts: &mut [u8],
) -> bool {
    let x = extent_of(head);
    says_as_due(head, |said| {
        kf_take_held(
            map, counts, x.start, x.count, x.owner, x.offset, new_map, new_counts, said,
        )
    })
}

fn on_explain(head: &[u8], map: &[u8], counts: &[u8]) -> bool {
    let x = extent_of(head);
    says_as_due(head, |said| {
        kf_explain(
            map,
            counts,
            x.start,
            x.count,
            x.owner,
            x.offset,
            number(head, 30),
            said,
        )
    })
}

// A sheet read, or written.
fn on_sheet(head: &[u8], call: u32, given: &[u8], out: &mut [u8]) -> bool {
    says_as_due(head, |said| match call {
        25 => kf_read_sheet(given, out, said),
        _ => kf_write_sheet(given, out, said),
    })
}

// The call of a case on its two inputs and three outputs: are answer and figures the same, and what is not in an output? The numbers of the calls are those
// of a case (docs/REPLAY.md).
fn call_as_due(
    head: &[u8],
    a: &[u8],
    b: &[u8],
    x: &mut [u8],
    y: &mut [u8],
    z: &mut [u8],
    list: &mut [u32],
) -> bool {
    let call = number(head, 0);
    match call {
        1 | 2 | 3 | 15 | 19 | 20 => on_list(head, call, a),
        4 => on_block(head, a),
        5 => on_plan(head, a),
        6 => on_build(head, a, b, x, list),
        7 | 16 | 22 => on_walk(head, a, b, x),
        8 | 9 | 10 => on_edit(head, call, a, x),
        11 => on_release(head, a, x, y),
        12 => on_let_go(head, a, b, x, y, z),
        13 | 17 | 23 => on_real_walk(head, b, x),
        14 => on_take_held(head, a, b, x, y),
        18 => on_lookup(head, a, b, x, list),
        21 => on_two_lists(head, a, b),
        24 => on_explain(head, a, b),
        25 | 26 => on_sheet(head, call, a, x),
        _ => false,
    }
}

// A case on inputs and outputs of its own lengths.
fn replay(
    head: &[u8],
    a: &mut [u8],
    b: &mut [u8],
    x: &mut [u8],
    y: &mut [u8],
    z: &mut [u8],
    list: &mut [u32],
    due: &mut [u8],
) -> bool {
    take(a)
        && take(b)
        && call_as_due(head, a, b, x, y, z, list)
        && as_due(x, due)
        && as_due(y, due)
        && as_due(z, due)
}

// Replays the next case, if there is one: is all the same? What follows a case that differs is not read.
fn next() -> Option<bool> {
    let mut head = [0u8; 136];
    if !take(&mut head) || number(&head, 0) == 0 {
        return None;
    }
    let mut a = [0u8; 16384];
    let mut b = [0u8; 8192];
    let mut x = [0xA5u8; 16384];
    let mut y = [0xA5u8; 8192];
    let mut z = [0xA5u8; 8192];
    let mut list = [0u32; 64];
    let mut due = [0u8; 16384];
    let lz = if number(&head, 0) == 12 {
        number(&head, 29) as usize
    } else {
        0
    };
    let (Some(a), Some(b), Some(x), Some(y), Some(z)) = (
        a.get_mut(..number(&head, 25) as usize),
        b.get_mut(..number(&head, 26) as usize),
        x.get_mut(..number(&head, 27) as usize),
        y.get_mut(..number(&head, 28) as usize),
        z.get_mut(..lz),
    ) else {
        return Some(false);
    };
    Some(replay(&head, a, b, x, y, z, &mut list, &mut due))
}

fn show(cases: u64, same: u64) {
    print_number(b"cases ", cases);
    print_number(b" same ", same);
    newline();
}

fn main() {
    for n in 0..100000u64 {
        match next() {
            None => return show(n, n),
            Some(false) => return show(n + 1, n),
            Some(true) => {}
        }
    }
    show(100000, 100000);
}
