// Blocks of a letting go explained, run: 0 free now, 1 still held, 2 staging, or the number of the question that failed; then, on a line of its own, the bytes
// of the deciding record in hexadecimal. `stdout` was worked out by hand.
#![tactic(auto)]

use codec::rmap::Rmap;
use reasons::explain::explain;
use show::lines::{newline, number, words};

// One block asked about. What is said is written over a number that no explanation says.
fn row<'a>(name: &[u8], map: &'a [u8], counts: &'a [u8], x: Rmap, block: u32) {
    let mut said = 0xEEEE;
    let record = explain(map, counts, x, block, &mut said);
    io::write_all(1, name);
    number(b" ", said as u64);
    newline();
    words(record);
}

fn extent(startblock: u32, blockcount: u32, owner: u64, offset: u64) -> Rmap {
    Rmap {
        startblock,
        blockcount,
        owner,
        offset,
    }
}

// 0/4 of owner 7, of which owner 9 holds 1/2 too; all of it is let go.
fn shared() {
    let map =
        b"\0\0\0\0\0\0\0\x04\0\0\0\0\0\0\0\x07\0\0\0\0\0\0\0\0\0\0\0\x01\0\0\0\x02\0\0\0\0\0\0\0\x09\0\0\0\0\0\0\0\0";
    let counts = b"\0\0\0\x01\0\0\0\x02\0\0\0\x02";
    let gone = extent(0, 4, 7, 0);
    row(b"free", map, counts, gone, 0);
    row(b"held", map, counts, gone, 1);
    row(b"held, last", map, counts, gone, 2);
    row(b"free, last", map, counts, gone, 3);
    row(b"outside", map, counts, gone, 4);
    row(b"far outside", map, counts, gone, 2147483648);
    // owner 9 lets go: what holds the block is the record before the one cut
    row(b"held by the first", map, counts, extent(1, 2, 9, 0), 2);
}

// The same with staging records: over block 3, inside the extent, and over block 6, outside.
fn staging() {
    let map =
        b"\0\0\0\0\0\0\0\x04\0\0\0\0\0\0\0\x07\0\0\0\0\0\0\0\0\0\0\0\x01\0\0\0\x02\0\0\0\0\0\0\0\x09\0\0\0\0\0\0\0\0";
    let gone = extent(0, 4, 7, 0);
    let inside = b"\0\0\0\x01\0\0\0\x02\0\0\0\x02\x80\0\0\x03\0\0\0\x01\0\0\0\x01";
    row(b"staging", map, inside, gone, 3);
    row(b"beside staging", map, inside, gone, 1);
    row(b"25 before 31", map, inside, gone, 4);
    let both =
        b"\0\0\0\x01\0\0\0\x02\0\0\0\x02\x80\0\0\x03\0\0\0\x01\0\0\0\x01\x80\0\0\x06\0\0\0\x01\0\0\0\x01";
    row(b"staging outside", map, both, gone, 6);
    let outside = b"\0\0\0\x01\0\0\0\x02\0\0\0\x02\x80\0\0\x06\0\0\0\x01\0\0\0\x01";
    row(b"staging outside alone", map, outside, gone, 6);
    row(b"clear", map, outside, gone, 1);
}

// Which other record is named.
fn others() {
    let gone = extent(0, 4, 7, 0);
    // an equal record is another
    row(
        b"equal",
        b"\0\0\0\0\0\0\0\x04\0\0\0\0\0\0\0\x07\0\0\0\0\0\0\0\0\0\0\0\0\0\0\0\x04\0\0\0\0\0\0\0\x07\0\0\0\0\0\0\0\0",
        b"\0\0\0\0\0\0\0\x04\0\0\0\x02",
        gone,
        0,
    );
    // the one cut is the first that lines up, so the one before it is named
    row(
        b"lines up",
        b"\0\0\0\0\0\0\0\x08\0\0\0\0\0\0\0\x07\0\0\0\0\0\0\0\0\0\0\0\0\0\0\0\x08\0\0\0\0\0\0\0\x07\0\0\0\0\0\0\0\x09",
        b"\0\0\0\0\0\0\0\x08\0\0\0\x02",
        extent(2, 3, 7, 11),
        3,
    );
    // none lines up: the first that contains the extent is cut, so the second is named
    row(
        b"lines up with none",
        b"\0\0\0\0\0\0\0\x08\0\0\0\0\0\0\0\x07\0\0\0\0\0\0\0\0\0\0\0\0\0\0\0\x08\0\0\0\0\0\0\0\x07\0\0\0\0\0\0\0\x09",
        b"\0\0\0\0\0\0\0\x08\0\0\0\x02",
        extent(2, 3, 7, 5),
        3,
    );
    // of three the first other one over the block, which is not the first in the list
    row(
        b"first other",
        b"\0\0\0\0\0\0\0\x01\0\0\0\0\0\0\0\x05\0\0\0\0\0\0\0\0\0\0\0\0\0\0\0\x04\0\0\0\0\0\0\0\x07\0\0\0\0\0\0\0\0\0\0\0\x01\0\0\0\x01\0\0\0\0\0\0\0\x05\0\0\0\0\0\0\0\x01\0\0\0\x02\0\0\0\x02\0\0\0\0\0\0\0\x08\0\0\0\0\0\0\0\0\0\0\0\x02\0\0\0\x02\0\0\0\0\0\0\0\x09\0\0\0\0\0\0\0\0",
        b"\0\0\0\0\0\0\0\x02\0\0\0\x02\0\0\0\x02\0\0\0\x02\0\0\0\x03",
        gone,
        3,
    );
    // two owners told, and nobody else in the reverse map: the count
    row(
        b"count alone",
        b"\0\0\0\0\0\0\0\x04\0\0\0\0\0\0\0\x07\0\0\0\0\0\0\0\0",
        b"\0\0\0\0\0\0\0\x01\0\0\0\x02\0\0\0\x02\0\0\0\x02\0\0\0\x02",
        gone,
        3,
    );
    // a record in the reverse map, and no count: free
    row(
        b"no count",
        b"\0\0\0\0\0\0\0\x04\0\0\0\0\0\0\0\x07\0\0\0\0\0\0\0\0\0\0\0\x01\0\0\0\x02\0\0\0\0\0\0\0\x09\0\0\0\0\0\0\0\0",
        b"",
        gone,
        1,
    );
}

// Refused by each question but 25 and 31.
fn refused() {
    let map =
        b"\0\0\0\0\0\0\0\x04\0\0\0\0\0\0\0\x07\0\0\0\0\0\0\0\0\0\0\0\x01\0\0\0\x02\0\0\0\0\0\0\0\x09\0\0\0\0\0\0\0\0";
    let counts = b"\0\0\0\x01\0\0\0\x02\0\0\0\x02";
    let gone = extent(0, 4, 7, 0);
    row(
        b"map of 47 bytes",
        b"\0\0\0\0\0\0\0\x04\0\0\0\0\0\0\0\x07\0\0\0\0\0\0\0\0\0\0\0\x01\0\0\0\x02\0\0\0\0\0\0\0\x09\0\0\0\0\0\0\0",
        b"\0",
        extent(0, 0, 7, 0),
        9,
    );
    row(
        b"map out of order",
        b"\0\0\0\x01\0\0\0\x02\0\0\0\0\0\0\0\x09\0\0\0\0\0\0\0\0\0\0\0\0\0\0\0\x04\0\0\0\0\0\0\0\x07\0\0\0\0\0\0\0\0",
        b"\0",
        extent(0, 0, 7, 0),
        9,
    );
    row(b"no block", map, b"\0", extent(0, 0, 7, 0), 9);
    row(b"not contained", map, b"\0", extent(0, 5, 7, 0), 9);
    row(b"counts of 1 byte", map, b"\0", gone, 9);
    row(
        b"counts of one owner",
        map,
        b"\0\0\0\x01\0\0\0\x02\0\0\0\x01",
        gone,
        9,
    );
    row(b"all hold", map, counts, gone, 1);
}

fn main() {
    shared();
    staging();
    others();
    refused();
}
