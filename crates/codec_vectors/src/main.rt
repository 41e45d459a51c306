// RFC 3720's vectors of CRC32C (B.4) and short inputs, by words and by single bytes, a block's check put into its own field and left out again, a
// record of each kind written among other bytes and read back, and lists that questions 19 to 21 accept and refuse.
#![tactic(auto)]

use codec::check::ListRefusal;
use codec::free_extent::FreeExtent;
use codec::refcount::Refcount;
use codec::rmap::Rmap;
use codec::{crc, endian, free_extent, refcount, rmap};
use show::lines::{newline, show_outcome, words};

fn line(name: &[u8], check: u32) {
    io::write_all(1, name);
    io::write_all(1, b" ");
    io::print_hex(1, check as u64, 8);
    newline();
}

fn answer(name: &[u8], r: Result<usize, ListRefusal>) {
    io::write_all(1, name);
    show_outcome(b" accepted ", r);
    newline();
}

fn rmaps(name: &[u8], list: &[u8]) {
    answer(name, rmap::check_order(list));
}

fn refcounts(name: &[u8], list: &[u8]) {
    answer(name, refcount::check_order(list));
}

// The check of the bytes, by words and by single bytes.
fn forms(name: &[u8], bytes: &[u8]) {
    line(name, crc::crc32c(bytes));
    line(name, crc::crc32c_singly(bytes));
}

fn checks() {
    forms(b"zeros", &[0u8; 32]);
    forms(b"ones", &[0xFFu8; 32]);
    forms(
        b"rising",
        b"\x00\x01\x02\x03\x04\x05\x06\x07\x08\x09\x0A\x0B\x0C\x0D\x0E\x0F\x10\x11\x12\x13\x14\x15\x16\x17\x18\x19\x1A\x1B\x1C\x1D\x1E\x1F",
    );
    forms(
        b"falling",
        b"\x1F\x1E\x1D\x1C\x1B\x1A\x19\x18\x17\x16\x15\x14\x13\x12\x11\x10\x0F\x0E\x0D\x0C\x0B\x0A\x09\x08\x07\x06\x05\x04\x03\x02\x01\x00",
    );
    // An iSCSI SCSI Read (10) Command PDU. Its bytes 4 to 7 are zeros.
    let mut pdu =
        *b"\x01\xC0\0\0\0\0\0\0\0\0\0\0\0\0\0\0\x14\0\0\0\0\0\x04\0\0\0\0\x14\0\0\0\x18\x28\0\0\0\0\0\0\0\x02\0\0\0\0\0\0\0";
    forms(b"pdu", &pdu);
    let check = crc::crc32c(&pdu);
    endian::put_le32(&mut pdu, 4, check);
    line(b"field", endian::be32(&pdu, 4));
    line(b"read", endian::le32(&pdu, 4));
    line(b"zeroed", crc::crc32c_with_zeroed_crc(&pdu, 4));
    // Of these parts only the zeros are whole words.
    line(
        b"zeroed at 5",
        crc::crc32c_with_zeroed_crc(b"123456789012345", 5),
    );
    forms(b"zeros at 5", b"12345\0\0\0\0012345");
}

// Shorter than a word, whole words, and words with bytes after them.
fn lengths() {
    forms(b"0 bytes", b"");
    forms(b"1 byte", b"1");
    forms(b"3 bytes", b"123");
    forms(b"4 bytes", b"1234");
    forms(b"5 bytes", b"12345");
    forms(b"7 bytes", b"1234567");
    forms(b"8 bytes", b"12345678");
    forms(b"9 bytes", b"123456789");
}

// A field in hexadecimal, of so many digits.
fn field(n: u64, digits: usize) {
    io::write_all(1, b" ");
    io::print_hex(1, n, digits);
}

// A record four bytes into a buffer of ee, which stays as it was before it and behind it.
fn rmap_record() {
    let mut b = [0xEEu8; 32];
    rmap::encode(
        &mut b,
        4,
        Rmap {
            startblock: 0x01020304,
            blockcount: 0x05060708,
            owner: 0x090A0B0C0D0E0F10,
            offset: 0x1112131415161718,
        },
    );
    words(&b);
    let r = rmap::decode(&b, 4);
    field(r.startblock as u64, 8);
    field(r.blockcount as u64, 8);
    field(r.owner, 16);
    field(r.offset, 16);
    newline();
}

fn refcount_record() {
    let mut b = [0xEEu8; 20];
    refcount::encode(
        &mut b,
        4,
        Refcount {
            startblock: 0x81020304,
            blockcount: 0x05060708,
            refcount: 0x090A0B0C,
        },
    );
    words(&b);
    let r = refcount::decode(&b, 4);
    field(r.startblock as u64, 8);
    field(r.blockcount as u64, 8);
    field(r.refcount as u64, 8);
    newline();
}

fn extent_record() {
    let mut b = [0xEEu8; 16];
    free_extent::encode(
        &mut b,
        4,
        FreeExtent {
            startblock: 0x01020304,
            blockcount: 0x05060708,
        },
    );
    words(&b);
    let e = free_extent::decode(&b, 4);
    field(e.startblock as u64, 8);
    field(e.blockcount as u64, 8);
    newline();
}

fn lists() {
    rmaps(b"no record", b"");
    rmaps(b"a byte", b"\0");
    rmaps(
        b"owner 7 before owner -3",
        b"\0\0\0\x04\0\0\0\x04\0\0\0\0\0\0\0\x07\0\0\0\0\0\0\0\0\0\0\0\x04\0\0\0\x04\xFF\xFF\xFF\xFF\xFF\xFF\xFF\xFD\0\0\0\0\0\0\0\0",
    );
    rmaps(
        b"owner -3 before owner 7",
        b"\0\0\0\x04\0\0\0\x04\xFF\xFF\xFF\xFF\xFF\xFF\xFF\xFD\0\0\0\0\0\0\0\0\0\0\0\x04\0\0\0\x04\0\0\0\0\0\0\0\x07\0\0\0\0\0\0\0\0",
    );
    rmaps(
        b"equal but for bit 61",
        b"\0\0\0\x04\0\0\0\x04\0\0\0\0\0\0\0\x07\x20\0\0\0\0\0\0\0\0\0\0\x04\0\0\0\x04\0\0\0\0\0\0\0\x07\0\0\0\0\0\0\0\0",
    );
    rmaps(
        b"count 0",
        b"\0\0\0\x04\0\0\0\0\0\0\0\0\0\0\0\x07\0\0\0\0\0\0\0\0",
    );
    rmaps(
        b"end 2147483649",
        b"\x7F\xFF\xFF\xFF\0\0\0\x02\0\0\0\0\0\0\0\x07\0\0\0\0\0\0\0\0",
    );
    rmaps(
        b"file offset and count 2^54 + 1",
        b"\0\0\0\x04\0\0\0\x02\0\0\0\0\0\0\0\x07\0\x3F\xFF\xFF\xFF\xFF\xFF\xFF",
    );
    rmaps(
        b"the same with bit 62",
        b"\0\0\0\x04\0\0\0\x02\0\0\0\0\0\0\0\x07\x40\x3F\xFF\xFF\xFF\xFF\xFF\xFF",
    );
    refcounts(b"eleven bytes", b"\0\0\0\0\0\0\0\x01\0\0\0");
    refcounts(b"one owner", b"\0\0\0\0\0\0\0\x01\0\0\0\x01");
    refcounts(
        b"shared, then staging of the same block",
        b"\0\0\0\0\0\0\0\x01\0\0\0\x02\x80\0\0\0\0\0\0\x01\0\0\0\x01",
    );
    refcounts(
        b"staging, then shared",
        b"\x80\0\0\0\0\0\0\x01\0\0\0\x01\0\0\0\x08\0\0\0\x01\0\0\0\x02",
    );
    refcounts(
        b"one block in two records",
        b"\0\0\0\0\0\0\0\x02\0\0\0\x02\0\0\0\x01\0\0\0\x01\0\0\0\x02",
    );
}

fn main() {
    checks();
    lengths();
    rmap_record();
    refcount_record();
    extent_record();
    lists();
}
