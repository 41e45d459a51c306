// Edits of both lists, run: the answer, then each output in hexadecimal. eeeeeeee was not written.
#![tactic(auto)]

use codec::refusal::Told;
use codec::rmap::Rmap;
use lists::EditRefusal;
use lists::refcounts::release;
use lists::rmap_edits::{insert, insert_shared, remove};
use show::lines::{newline, number, show_outcome, words};

// One edit, with 56 bytes lent for the new list.
fn row<E>(name: &[u8], edit: E, old: &[u8], x: Rmap)
where
    E: FnOnce(&[u8], Rmap, &mut [u8]) -> Result<usize, EditRefusal>,
    requires { E.IsAlwaysCallable edit }
{
    let mut new = [0xEEu8; 56];
    io::write_all(1, name);
    show_outcome(b" done ", edit(old, x, &mut new));
    newline();
    words(&new);
}

fn extent(startblock: u32, blockcount: u32, owner: u64, offset: u64) -> Rmap {
    Rmap {
        startblock,
        blockcount,
        owner,
        offset,
    }
}

fn edits() {
    // 4/4 of owner 7 alone; insert 2/4 of owner 9 would run into it: 23
    let four = b"\0\0\0\x04\0\0\0\x04\0\0\0\0\0\0\0\x07\0\0\0\0\0\0\0\0";
    row(b"insert 2/4", insert, four, extent(2, 4, 9, 0));
    row(b"insert 2/2", insert, four, extent(2, 2, 9, 0));
    row(b"insert 7/1", insert, four, extent(7, 1, 9, 0));
    // 0/3 of owner 1 and 0/1 of owner 2: the last record that starts at or before 1/1 ends in time, and yet the first lies over it
    row(
        b"insert 1/1 under 0/3",
        insert,
        b"\0\0\0\0\0\0\0\x03\0\0\0\0\0\0\0\x01\0\0\0\0\0\0\0\0\0\0\0\0\0\0\0\x01\0\0\0\0\0\0\0\x02\0\0\0\0\0\0\0\0",
        extent(1, 1, 3, 0),
    );
    row(b"insert 8/4 at 4", insert, four, extent(8, 4, 7, 4));
    row(b"insert 8/0", insert, four, extent(8, 0, 7, 4));
    row(
        b"insert_shared 4/4 at 9",
        insert_shared,
        four,
        extent(4, 4, 7, 9),
    );
    row(
        b"insert_shared 4/4 at 0",
        insert_shared,
        four,
        extent(4, 4, 7, 0),
    );
    row(b"remove 5/1 at 1", remove, four, extent(5, 1, 7, 1));
    row(b"remove 5/1 of owner 9", remove, four, extent(5, 1, 9, 1));
    row(
        b"remove from 23 bytes",
        remove,
        b"\0\0\0\x04\0\0\0\x04\0\0\0\0\0\0\0\x07\0\0\0\0\0\0\0",
        extent(5, 1, 7, 1),
    );
    row(
        b"remove from a count of 0",
        remove,
        b"\0\0\0\x04\0\0\0\0\0\0\0\0\0\0\0\x07\0\0\0\0\0\0\0\0",
        extent(5, 1, 7, 1),
    );
    row(
        b"insert 20/1 in two",
        insert,
        b"\0\0\0\x04\0\0\0\x04\0\0\0\0\0\0\0\x07\0\0\0\0\0\0\0\0\0\0\0\x0A\0\0\0\x04\0\0\0\0\0\0\0\x07\0\0\0\0\0\0\0\0",
        extent(20, 1, 9, 0),
    );
}

// One release, with 40 bytes lent for the new counts and 20 for the free extents.
fn let_go(counts: &[u8], startblock: u32, blockcount: u32) {
    let mut new = [0xEEu8; 40];
    let mut free = [0xEEu8; 20];
    match release(counts, startblock, blockcount, &mut new, &mut free) {
        Ok(lengths) => {
            number(b"done ", lengths.counts as u64);
            number(b" ", lengths.free as u64);
        }
        Err(why) => number(b"refused ", Told::from(why).number as u64),
    }
    newline();
    words(&new);
    words(&free);
}

fn releases() {
    // 100/10/3, let go 103/4; the same with 2 owners
    let_go(b"\0\0\0\x64\0\0\0\x0A\0\0\0\x03", 103, 4);
    let_go(b"\0\0\0\x64\0\0\0\x0A\0\0\0\x02", 103, 4);
    // 10/5/2, let go 8/10
    let_go(b"\0\0\0\x0A\0\0\0\x05\0\0\0\x02", 8, 10);
    // 0/4/3 and 4/4/2, let go 0/4
    let_go(
        b"\0\0\0\0\0\0\0\x04\0\0\0\x03\0\0\0\x04\0\0\0\x04\0\0\0\x02",
        0,
        4,
    );
    // the last block of a group of 2,147,483,648, and one block too many
    let_go(b"", 2147483647, 1);
    let_go(b"", 2147483647, 2);
    // pairs elsewhere in the list join, staging too: 10/1/2, 11/1/2, staging 20/2 and 22/1, let go 0/1
    let_go(
        b"\0\0\0\x0A\0\0\0\x01\0\0\0\x02\0\0\0\x0B\0\0\0\x01\0\0\0\x02\x80\0\0\x14\0\0\0\x02\0\0\0\x01\x80\0\0\x16\0\0\0\x01\0\0\0\x01",
        0,
        1,
    );
    // 12 bytes more than were lent: 100/10/3 and staging 3/2, let go 103/4
    let_go(
        b"\0\0\0\x64\0\0\0\x0A\0\0\0\x03\x80\0\0\x03\0\0\0\x02\0\0\0\x01",
        103,
        4,
    );
    // no whole record; a record of no block; an empty extent inside a record; a staging record in the way
    let_go(b"\0", 0, 0);
    let_go(b"\0\0\0\x01\0\0\0\0\0\0\0\x02", 0, 0);
    let_go(b"\0\0\0\x64\0\0\0\x0A\0\0\0\x03", 104, 0);
    let_go(b"\x80\0\0\x03\0\0\0\x02\0\0\0\x01", 4, 1);
}

fn main() {
    edits();
    releases();
}
