// Images of blocks that the test programs make: blocks stored at their numbers, damaged there, and pointers put into nodes.
ghost use Rattle.std.specs.Prelude.{◌≡◌, ◌*◌, ◌↔◌, true, IfSome, IsSome, SomeIff, length};
ghost use Rattle.show.specs.Images.{has_part, part_of, stored, stored_each, damaged_in, with_pointers};

use crate::samples::damage;
use codec::copy::copy;
use codec::endian::put_be32;

// Where part i of bytes begins that are parts of so many bytes, where there is one.
fn begins(bytes: &[u8], size: usize, i: u32) -> Option<usize>
    ensures { SomeIff result (has_part bytes.now size i ≡ true) (i * size) }
{
    let at = (i as usize).checked_mul(size)?;
    if at <= bytes.len() && size <= bytes.len() - at {
        Some(at)
    } else {
        None
    }
}

// Part i of bytes that are parts of so many bytes, where there is one.
pub fn part(bytes: &mut [u8], size: usize, i: u32) -> Option<&mut [u8]>
    ensures there { IsSome result ↔ (has_part bytes.old size i ≡ true) }
    ensures bytes { IfSome result (λ p. p.now ≡ part_of bytes.old size i) }
    ensures size { IfSome result (λ p. length p.now ≡ size) }
{
    let at = begins(bytes, size, i)?;
    Some(&mut bytes[at..at + size])
}

// A block stored at a number of an image of blocks of its size, where the image reaches over it.
pub fn store(block: &[u8], image: &mut [u8], number: u32)
    ensures { image.new ≡ stored block.now number image.old }
{
    if let Some(at) = begins(image, block.len(), number) {
        copy(block, image, at);
    }
}

// Blocks that stand one after another, each stored at its number.
pub fn store_each(blocks: &[u8], size: usize, numbers: &[u32], image: &mut [u8])
    ensures { image.new ≡ stored_each blocks.now size numbers.now image.old }
{
    let mut rest = blocks;
    for number in numbers {
        let Some((block, others)) = rest.split_at_checked(size) else {
            return;
        };
        store(block, image, *number);
        rest = others;
    }
}

// One byte of a block of an image damaged, its check put in again where asked.
pub fn damage_in(image: &mut [u8], size: usize, block: u32, at: usize, value: u8, again: bool)
    ensures { image.new ≡ damaged_in image.old size block at value again }
{
    if let Some(from) = begins(image, size, block) {
        damage(&mut image[from..from + size], at, value, again);
    }
}

// Pointers put into a node one after another, the first one `first` bytes into it, as many as there is room for.
pub fn put_pointers(node: &mut [u8], first: usize, pointers: &[u32])
    ensures { node.new ≡ with_pointers node.old first pointers.now }
{
    // counted, since of a slice written through chunks_exact_mut the library does not say what it ends as
    let mut at = first;
    for pointer in pointers {
        if node.len() < at || node.len() - at < 4 {
            return;
        }
        put_be32(node, at, *pointer);
        at += 4;
    }
}
