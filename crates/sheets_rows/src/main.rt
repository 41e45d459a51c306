// Sheets of changes, written, read back, damaged and refused. A line has the answer, the CRC of all that was lent, so that every byte counts, and its first
// 64 bytes; 0xEE was there before. `stdout` was worked out apart from this code.
#![tactic(auto)]

ghost use Rattle.std.specs.Prelude.{◌≡◌, ◌+◌, length};

use codec::crc::crc32c;
use codec::endian::{put_be32, put_le32};
use codec::rmap::{Rmap, encode};
use sheets::SheetRefusal;
use sheets::change::{CHANGE_LEN, SheetChange, change_at};
use sheets::read::{check_sheet, read_sheet};
use sheets::write::write_sheet;
use show::lines::{newline, number, show_outcome, words};

fn answer(name: &[u8], r: Result<usize, SheetRefusal>) {
    io::write_all(1, name);
    show_outcome(b" done ", r);
}

// The CRC of what was lent, and its first bytes.
fn bytes(b: &[u8]) {
    io::write_all(1, b" crc ");
    io::print_hex(1, crc32c(b) as u64, 8);
    if 64 <= b.len() {
        words(&b[0..64]);
    }
}

fn put_change(change: &mut [u8], kind: u32, x: Rmap)
    requires { length change.old ≡ 32 }
{
    put_be32(change, 0, kind);
    put_be32(change, 4, 0);
    encode(change, 8, x);
}

// Kinds 1 to 3 in turn, and extents one after another.
fn fill(list: &mut [u8]) {
    for (i, change) in list.chunks_exact_mut(CHANGE_LEN).enumerate() {
        let k = (i % 1000) as u32;
        let x = Rmap {
            startblock: k * 10,
            blockcount: k + 1,
            owner: 1000,
            offset: k as u64,
        };
        put_change(change, k % 3 + 1, x);
    }
}

// A list filled, and its sheet, of which `row` shows the answer.
fn write_filled(list: &mut [u8], sheet: &mut [u8]) {
    fill(list);
    let _ = write_sheet(list, sheet);
}

// A list written, and what was written read back.
fn row(name: &[u8], list: &[u8]) {
    let mut sheet = [0xEEu8; 1536];
    let mut back = [0xEEu8; 1536];
    let w = write_sheet(list, &mut sheet);
    answer(name, w);
    bytes(&sheet);
    if let Ok(n) = w
        && n <= 1536
    {
        answer(b"  read", read_sheet(&sheet[0..n], &mut back));
        bytes(&back);
    }
}

// The CRC of the block at `start` put in again, where there is one.
fn seal(sheet: &mut [u8], start: usize) {
    if 512 <= sheet.len() && start <= sheet.len() - 512 {
        let crc = crc32c(&sheet[start + 4..start + 512]);
        put_le32(sheet, start, crc);
    }
}

fn put(sheet: &mut [u8], at: usize, value: u8) {
    if at < sheet.len() {
        sheet[at] = value;
    }
}

// One byte set to a value, and the block's CRC put in again where asked.
fn damage(sheet: &mut [u8], at: usize, value: u8, again: bool) {
    put(sheet, at, value);
    if again {
        seal(sheet, at / 512 * 512);
    }
}

// A byte of a sheet, and what it is set to.
#[derive(Clone, Copy)]
struct Byte {
    at: usize,
    value: u8,
}

fn set(at: usize, value: u8) -> Byte {
    Byte { at, value }
}

// The sheet of 16 changes, damaged at two bytes; the CRC of the second one's block is put in again where asked.
fn damaged(name: &[u8], first: Byte, second: Byte, again: bool) {
    let mut list = [0u8; 512];
    let mut sheet = [0u8; 1024];
    let mut back = [0xEEu8; 1536];
    write_filled(&mut list, &mut sheet);
    damage(&mut sheet, first.at, first.value, true);
    damage(&mut sheet, second.at, second.value, again);
    answer(name, read_sheet(&sheet, &mut back));
    bytes(&back);
}

fn kind(list: &[u8], i: usize) {
    number(b"change ", i as u64);
    match change_at(list, i) {
        Some(SheetChange::FirstTake(x)) => number(b" first take ", x.startblock as u64),
        Some(SheetChange::LetGo(x)) => number(b" let go ", x.startblock as u64),
        Some(SheetChange::TakeHeld(x)) => number(b" take of held blocks ", x.startblock as u64),
        None => {
            io::write_all(1, b" none");
        }
    }
    newline();
}

// An output of some bytes, for the sheet of 16 changes and for its changes.
fn rooms(sheet_room: usize, room: usize) {
    let mut list = [0u8; 512];
    let mut sheet = [0u8; 1024];
    let mut back = [0xEEu8; 1536];
    write_filled(&mut list, &mut sheet);
    if room <= 1536 {
        number(b"room ", room as u64);
        answer(b":", read_sheet(&sheet, &mut back[0..room]));
    }
    if sheet_room <= 1024 {
        number(b", room ", sheet_room as u64);
        answer(b":", write_sheet(&list, &mut sheet[0..sheet_room]));
    }
    newline();
}

// The first bytes of the sheet of 16 changes.
fn lengths(n: usize) {
    let mut list = [0u8; 512];
    let mut sheet = [0u8; 1024];
    write_filled(&mut list, &mut sheet);
    if n <= 1024 {
        number(b"length ", n as u64);
        answer(b":", check_sheet(&sheet[0..n]));
    }
    newline();
}

fn lists() {
    let mut list = [0u8; 1024];
    fill(&mut list);
    row(b"no change", &list[0..0]);
    row(b"1 change", &list[0..32]);
    row(b"15 changes", &list[0..480]);
    row(b"16 changes", &list[0..512]);
    row(b"31 changes", &list[0..992]);
    row(b"33 bytes", &list[0..33]);
}

fn kinds() {
    let mut list = [0u8; 1024];
    fill(&mut list);
    kind(&list, 0);
    kind(&list, 1);
    kind(&list, 2);
    kind(&list, 31);
    kind(&list, 32);
}

// Two changes, one byte of which is set to a value.
fn bad(name: &[u8], at: usize, value: u8) {
    let mut list = [0u8; 64];
    fill(&mut list);
    put(&mut list, at, value);
    row(name, &list);
    kind(&list, 0);
}

// Byte 7 is of the place, 9 of the number of changes, 10 the mark; those of the last block stand 512 bytes on.
fn damages() {
    let same = set(519, 1);
    damaged(b"as written", set(7, 0), same, true);
    damaged(b"bad CRC", set(7, 0), set(100, 255), false);
    damaged(b"place 1 first", set(7, 1), same, true);
    damaged(b"place 2 last", set(7, 0), set(519, 2), true);
    damaged(b"14 in the first", set(9, 14), same, true);
    damaged(b"16 in the last", set(521, 16), same, true);
    damaged(b"none in the last", set(521, 0), same, true);
    damaged(b"2 in the last, one of zeros", set(521, 2), same, true);
    damaged(b"mark in the first", set(10, 1), same, true);
    damaged(b"no mark in the last", set(522, 0), same, true);
    damaged(b"byte 31", set(31, 1), same, true);
    damaged(b"kind 5", set(35, 5), same, true);
    damaged(b"zeros of a change", set(39, 1), same, true);
    damaged(b"unused change", set(1023, 1), same, true);
    damaged(b"another record", set(40, 9), same, true);
    damaged(
        b"a rule in the first, the CRC of the last",
        set(7, 3),
        set(600, 255),
        false,
    );
}

fn main() {
    lists();
    kinds();
    bad(b"kind 4", 3, 4);
    bad(b"kind 0", 3, 0);
    bad(b"zeros not zero", 36, 1);
    rooms(1023, 511);
    rooms(1024, 512);
    lengths(0);
    lengths(511);
    lengths(512);
    lengths(1023);
    lengths(1024);
    damages();
}
