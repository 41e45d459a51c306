// What the plan program prints, put into a buffer from a place on. Each answers the place behind it.
ghost use Rattle.std.specs.Prelude.{◌≡◌, ◌+◌, ◌≤◌, ◌<◌, length};
ghost use Rattle.codec.specs.Bytes.{with_bytes};
ghost use Rattle.trees.specs.PlanAnswer.{plan_outcome};
ghost use Rattle.plan_text.specs.Text.{decimal, number_line, level_line, level_lines, plan_text, answer_length, answered};

use crate::line::read;
use blocks::geometry::Geometry;
use blocks::kind::TreeKind;
use codec::copy::copy;
use codec::refusal::Told;
use trees::plan::plan;

// No answer is longer than this.
pub const ROOM: usize = 640;

// A number in decimal. By hand: the library's `print_decimal` writes to a descriptor, and here the bytes and their number are promised.
fn put_decimal(out: &mut [u8], at: usize, n: u64) -> usize
    requires { at + length (decimal n) ≤ length out.old }
    ensures value { result ≡ at + length (decimal n) }
    ensures out_after { out.new ≡ with_bytes out.old at (decimal n) }
{
    if n < 10 {
        out[at] = 48 + n as u8;
        return at + 1;
    }
    let k = put_decimal(out, at, n / 10);
    out[k] = 48 + (n % 10) as u8;
    k + 1
}

// A word, a number and a newline.
fn put_line(out: &mut [u8], at: usize, word: &[u8], n: u64) -> usize
    requires { at + length word.now + 21 ≤ length out.old }
    ensures value { (result ≡ at + length (number_line word.now n)) × (result ≤ at + length word.now + 21) }
    ensures out_after { out.new ≡ with_bytes out.old at (number_line word.now n) }
{
    copy(word, out, at);
    let k = put_decimal(out, at + word.len(), n);
    out[k] = 10;
    k + 1
}

// The line of a level.
fn put_level(out: &mut [u8], at: usize, level: u64, blocks: u64) -> usize
    requires { at + 64 ≤ length out.old }
    ensures value { (result ≡ at + length (level_line level blocks)) × (result ≤ at + 64) }
    ensures out_after { out.new ≡ with_bytes out.old at (level_line level blocks) }
{
    copy(b"level ", out, at);
    let k = put_decimal(out, at + 6, level);
    put_line(out, k, b" blocks ", blocks)
}

// The lines of the levels.
fn put_levels(out: &mut [u8], blocks: &[u64]) -> usize
    requires { (length blocks.now ≤ 9) × (576 ≤ length out.old) }
    ensures value { (result ≡ length (level_lines 0 blocks.now)) × (result ≤ 576) }
    ensures out_after { out.new ≡ with_bytes out.old 0 (level_lines 0 blocks.now) }
{
    let mut at = 0;
    for (i, &n) in blocks.iter().enumerate() {
        at = put_level(out, at, i as u64, n);
    }
    at
}

// A plan, or its refusal.
fn put_plan(out: &mut [u8], g: Geometry, kind: TreeKind, records: u64) -> usize
    requires { 640 ≤ length out.old }
    ensures value { (result ≡ length (plan_text (plan_outcome g kind records))) × (result ≤ 640) }
    ensures out_after { out.new ≡ with_bytes out.old 0 (plan_text (plan_outcome g kind records)) }
{
    match plan(g, kind, records) {
        Err(why) => put_line(out, 0, b"refused ", Told::from(why).number as u64),
        Ok(planned) => {
            let at = put_levels(out, &planned.blocks[..planned.levels]);
            put_line(out, at, b"blocks ", planned.total)
        }
    }
}

// What the program prints for its input, put at the start of `out`, and how long it is. Nothing is put where `out` has less than `ROOM`.
pub fn respond(input: &[u8], out: &mut [u8]) -> usize
    ensures value { (result ≡ answer_length input.now out.old) × (result ≤ 640) }
    ensures out_after { out.new ≡ answered input.now out.old }
{
    if out.len() < ROOM {
        return 0;
    }
    let Some(request) = read(input) else {
        copy(b"refused\n", out, 0);
        return 8;
    };
    let Ok(blocksize) = u32::try_from(request.blocksize) else {
        return put_line(out, 0, b"refused ", 1);
    };
    let g = Geometry {
        version: 5,
        blocksize,
        agblocks: 0,
        agno: 0,
        meta_uuid: [0u8; 16],
        last_lsn: 0,
    };
    put_plan(out, g, request.kind, request.records)
}
