// Lists of two free extents, in order or not, and pairs of lists that hold the same extents or not.
use codec::free_extent::{FreeExtent, encode};
use codec::refusal::Told;
use free::order::{Order, check_order};
use free::same::same_extents;
use show::lines::{either, newline, show_outcome, show_told};

// The first bytes of a list of two extents.
#[derive(Clone, Copy)]
struct TwoExtents {
    first: FreeExtent,
    second: FreeExtent,
    long: usize,
}

// The extents a/m and b/n, so many bytes of them.
fn two(a: u32, m: u32, b: u32, n: u32, long: usize) -> TwoExtents {
    TwoExtents {
        first: FreeExtent {
            startblock: a,
            blockcount: m,
        },
        second: FreeExtent {
            startblock: b,
            blockcount: n,
        },
        long,
    }
}

fn put_two(list: &mut [u8], l: TwoExtents) {
    if 16 <= list.len() {
        encode(list, 0, l.first);
        encode(list, 8, l.second);
    }
}

fn row(name: &[u8], order: Order, l: TwoExtents) {
    let mut list = [0u8; 16];
    put_two(&mut list, l);
    if 16 < l.long {
        return;
    }
    io::write_all(1, name);
    show_outcome(b" accepted ", check_order(order, &list[0..l.long]));
    newline();
}

fn by_block() {
    row(b"apart", Order::ByBlock, two(10, 5, 20, 3, 16));
    row(b"touching", Order::ByBlock, two(10, 5, 15, 3, 16));
    row(b"overlapping", Order::ByBlock, two(10, 5, 14, 3, 16));
    row(b"starts descending", Order::ByBlock, two(20, 3, 10, 5, 16));
    row(b"the same twice", Order::ByBlock, two(10, 5, 10, 5, 16));
    row(b"a count of 0", Order::ByBlock, two(10, 0, 20, 3, 16));
    row(
        b"the last end",
        Order::ByBlock,
        two(0, 1, 2147483647, 1, 16),
    );
    row(
        b"past the last end",
        Order::ByBlock,
        two(0, 1, 2147483647, 2, 16),
    );
    row(
        b"the greatest numbers",
        Order::ByBlock,
        two(0, 1, 4294967295, 4294967295, 16),
    );
    row(b"15 bytes", Order::ByBlock, two(20, 3, 10, 5, 15));
    row(b"one", Order::ByBlock, two(10, 5, 0, 0, 8));
    row(b"none", Order::ByBlock, two(0, 0, 0, 0, 0));
}

fn by_size() {
    row(b"counts ascending", Order::BySize, two(20, 3, 10, 5, 16));
    row(b"equal counts", Order::BySize, two(10, 5, 20, 5, 16));
    row(b"counts descending", Order::BySize, two(10, 5, 20, 3, 16));
    row(
        b"equal counts, starts descending",
        Order::BySize,
        two(20, 5, 10, 5, 16),
    );
    row(b"the same twice", Order::BySize, two(10, 5, 10, 5, 16));
    row(b"overlapping", Order::BySize, two(10, 5, 12, 6, 16));
    row(b"a count of 0", Order::BySize, two(10, 0, 20, 3, 16));
    row(
        b"the last end",
        Order::BySize,
        two(2147483647, 1, 0, 2147483648, 16),
    );
    row(
        b"past the last end",
        Order::BySize,
        two(2147483647, 1, 1, 2147483648, 16),
    );
    row(b"9 bytes", Order::BySize, two(20, 3, 10, 5, 9));
    row(b"one", Order::BySize, two(10, 5, 0, 0, 8));
    row(b"none", Order::BySize, two(0, 0, 0, 0, 0));
}

fn show_same(name: &[u8], by_block: &[u8], by_size: &[u8]) {
    io::write_all(1, name);
    match same_extents(by_block, by_size) {
        Ok(so) => either(so, b" yes", b" no"),
        Err(r) => {
            show_told(Told::from(r));
        }
    }
    newline();
}

// A list by block beside a list by size.
fn pair(name: &[u8], by_block: TwoExtents, by_size: TwoExtents) {
    let mut first = [0u8; 16];
    let mut second = [0u8; 16];
    put_two(&mut first, by_block);
    put_two(&mut second, by_size);
    if 16 < by_block.long || 16 < by_size.long {
        return;
    }
    show_same(name, &first[0..by_block.long], &second[0..by_size.long]);
}

// The extents 10/5 and 20/3 by block.
fn usual() -> TwoExtents {
    two(10, 5, 20, 3, 16)
}

fn pairs() {
    pair(b"the same", usual(), two(20, 3, 10, 5, 16));
    pair(
        b"equal counts",
        two(10, 5, 20, 5, 16),
        two(10, 5, 20, 5, 16),
    );
    pair(b"one by size missing", usual(), two(20, 3, 10, 5, 8));
    pair(
        b"one by block missing",
        two(20, 3, 0, 0, 8),
        two(20, 3, 10, 5, 16),
    );
    pair(b"another count", usual(), two(20, 3, 10, 6, 16));
    pair(b"another start", usual(), two(20, 3, 11, 5, 16));
    pair(
        b"start and count exchanged",
        two(10, 5, 0, 0, 8),
        two(5, 10, 0, 0, 8),
    );
    pair(
        b"the same blocks cut otherwise",
        two(10, 5, 15, 5, 16),
        two(10, 10, 0, 0, 8),
    );
    pair(b"overlapping by size", usual(), two(10, 5, 12, 6, 16));
    pair(b"none by size", usual(), two(20, 3, 10, 5, 0));
    pair(
        b"none by block",
        two(10, 5, 20, 3, 0),
        two(20, 3, 10, 5, 16),
    );
    pair(b"none", two(10, 5, 20, 3, 0), two(20, 3, 10, 5, 0));
}

// The questions on the list by block come first.
fn pairs_refused() {
    pair(
        b"15 bytes, then out of order",
        two(10, 5, 20, 3, 15),
        two(10, 5, 20, 3, 16),
    );
    pair(
        b"out of order, then 15 bytes",
        two(20, 3, 10, 5, 16),
        two(20, 3, 10, 5, 15),
    );
    pair(b"good, then 15 bytes", usual(), two(20, 3, 10, 5, 15));
    pair(b"good, then out of order", usual(), two(10, 5, 20, 3, 16));
}

pub(crate) fn lists() {
    io::write_all(1, b"by block\n");
    by_block();
    io::write_all(1, b"by size\n");
    by_size();
    io::write_all(1, b"same extents\n");
    pairs();
    pairs_refused();
}
