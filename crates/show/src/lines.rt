// The text that the test programs write to standard output.
ghost use Rattle.std.specs.Prelude.{◌≡◌, ◌/◌, length};

use codec::endian::be32;
use codec::refusal::Told;

// A name, and a number in decimal.
pub fn number(name: &[u8], n: u64) {
    io::write_all(1, name);
    io::print_decimal(1, n);
}

// The end of a line.
pub fn newline() {
    io::write_all(1, b"\n");
}

// One of two texts.
pub fn either(first: bool, a: &[u8], b: &[u8]) {
    io::write_all(1, if first { a } else { b });
}

// Four bytes at a time, in hexadecimal, on one line. Says how many numbers these are.
pub fn words(b: &[u8]) -> usize
    ensures { result ≡ length b.now / 4 }
{
    let numbers = b.chunks_exact(4);
    let count = numbers.len();
    for n in numbers {
        io::write_all(1, b" ");
        io::print_hex(1, be32(n, 0) as u64, 8);
    }
    newline();
    count
}

// Prints the number of a refusal and, where it has values, what was expected and what was found. Says the number.
// No `Display`: what the programs write to, the kit's `io`, takes bytes and numbers alone.
pub fn show_told(t: Told) -> u32
    ensures { result ≡ t.number }
{
    number(b" refused ", t.number as u64);
    if let Some(m) = t.values {
        number(b" expected ", m.expected);
        number(b" found ", m.found);
    }
    t.number
}

// The number that a call came to, after a name for it, or what it refused.
pub fn show_outcome<E: Into<Told>>(done: &[u8], outcome: Result<usize, E>) {
    match outcome {
        Ok(n) => number(done, n as u64),
        Err(e) => {
            show_told(e.into());
        }
    }
}
