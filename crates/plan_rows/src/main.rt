// Inputs of the plan program, and what it prints for each: the input in quotes, with \n, \r and \t for a newline, a carriage return and a tab,
// then the answer. `stdout` was worked out apart from this code.
#![tactic(auto)]

use plan_text::text::respond;
use show::places::throughout;

fn put(s: &[u8]) {
    io::write_all(1, s);
}

// One byte of an input.
fn put_byte(b: u8) {
    match b {
        9 => put(b"\\t"),
        10 => put(b"\\n"),
        13 => put(b"\\r"),
        _ => put(&[b]),
    }
}

// An input in quotes.
fn quote(s: &[u8]) {
    put(b"\"");
    for b in s {
        put_byte(*b);
    }
    put(b"\"\n");
}

// Says so where a byte of the buffer was written that is no part of the answer.
fn untouched(rest: &[u8]) {
    if !throughout(rest, 0xEE) {
        put(b"written past the answer\n");
    }
}

fn row(input: &[u8]) {
    let mut out = [0xEEu8; 650];
    let k = respond(input, &mut out);
    quote(input);
    put(&out[..k]);
    untouched(&out[k..]);
}

// A buffer of one byte less than an answer may need.
fn short_row(input: &[u8]) {
    let mut out = [0xEEu8; 639];
    let k = respond(input, &mut out);
    quote(input);
    io::print_decimal(1, k as u64);
    put(b" bytes of 639\n");
    untouched(&out);
}

fn plans() {
    row(b"rmap 4096 1000");
    row(b"rmap 4096 1000\n");
    row(b"rmap 4096 0");
    row(b"rmap 4096 15288");
    row(b"rmap 4096 15289");
    row(b"refcount 4096 336\n");
    row(b"refcount 4096 337");
    // zeros in front are digits; a number has up to 18
    row(b"rmap 04096 1000");
    row(b"rmap 000000000000004096 000000000000001000\n");
    row(b"refcount 65536 999999999999999999");
    // the longest line, of 47 bytes
    row(b"refcount 000000000000004096 000000000000000337\n");
    // nine levels
    row(b"rmap 512 1900000000");
}

fn refused() {
    // one level too many
    row(b"rmap 512 1900000001");
    // a size that is no power of two, too small, too large, more than 32 bits, and 4,096 in its low 32 bits
    row(b"rmap 4095 1");
    row(b"rmap 256 1");
    row(b"rmap 131072 1");
    row(b"rmap 4294967296 1");
    row(b"rmap 4294971392 1");
    // 1 comes before 16
    row(b"rmap 4095 999999999999999999");
}

fn others() {
    row(b"");
    row(b"\n");
    row(b"rmap 4096 1000\n\n");
    row(b"rmap 4096 1000\r\n");
    row(b"rmap\t4096 1000");
    row(b" rmap 4096 1000");
    row(b"rmap 4096 1000 ");
    row(b"rmap  4096 1000");
    row(b"rmap 4096");
    row(b"rmap 4096 ");
    row(b"rmap 4096 1000 1");
    row(b"rmap 4096 -1");
    row(b"rmap 4096 0x10");
    row(b"rmap 4096 1000.");
    row(b"Rmap 4096 1000");
    row(b"rmaps 4096 1000");
    // one byte more, and more than the program reads
    row(b"refcount 000000000000004096 0000000000000000337\n");
    row(b"rmap 000000000000000000000000000004096 00000000000000000000000000001000\n");
    // 19 digits, in either number
    row(b"rmap 4096 0000000000000001000");
    row(b"rmap 0000000000000004096 1000");
}

fn main() {
    plans();
    refused();
    others();
    short_row(b"rmap 4096 1000");
}
