// A list of records that stand one after another, in an order: the questions on its length and on its order, once for every kind of record.
ghost use Rattle.std.specs.Prelude.{◌≡◌, ℕ, Bool, ◌+◌, ◌<◌, ◌≤◌, length};
ghost use Rattle.codec.specs.Bytes.{bytes_at, with_bytes};
ghost use Rattle.codec.specs.Records.{Kind, records_of};
ghost use Rattle.codec.specs.Accepted.{in_order, check_list};
ghost use Rattle.codec.specs.ListRefusal.{list_number, list_outcome};

use crate::check::ListRefusal;

// A record: how many bytes it has, and how it stands in them. The module of each record has both as functions too, whose promises callers name.
pub trait Record: Copy {
    ghost kind: { Kind Self };

    const LEN: usize;

    ghost LEN: { ℕ };

    // The record at `at` bytes into `buf`.
    fn decode(buf: &[u8], at: usize) -> Self
        requires { at + kind.size ≤ length buf.now }
        ensures { result ≡ kind.decode (bytes_at buf.now at kind.size) };

    // `r` written at `at` bytes into `buf`.
    fn encode(buf: &mut [u8], at: usize, r: Self)
        requires { at + kind.size ≤ length buf.old }
        ensures { buf.new ≡ with_bytes buf.old at (kind.encode r) };

    ghost len_is: { LEN ≡ kind.size };

    ghost has_bytes: { 0 < LEN };
}

// What a list asks of its records: each by itself, and each after the one before it.
pub trait Order {
    type Item: Record;

    ghost is_good: { Self → Self.Item → Bool };

    ghost may_follow: { Self → Self.Item → Self.Item → Bool };

    ghost least: { Self.Item };

    // Is the record good by itself?
    fn is_good(&self, r: Self::Item) -> bool
        ensures { result ≡ is_good self.now r };

    // May r stand right after q?
    fn may_follow(&self, q: Self::Item, r: Self::Item) -> bool
        ensures { result ≡ may_follow self.now q r };

    // What stands before the first record: any good record may follow it.
    fn least(&self) -> Self::Item
        ensures { result ≡ least };
}

// Are the records of the list good and in order?
fn accepted<O: Order>(order: &O, list: &[u8]) -> bool
    ensures { result ≡ in_order (O.is_good order.now) (O.may_follow order.now) O.least (records_of O.Item.kind list.now) }
{
    let mut prev = order.least();
    for i in 0..list.len() / O::Item::LEN {
        let r = O::Item::decode(list, i * O::Item::LEN);
        if !order.is_good(r) || !order.may_follow(prev, r) {
            return false;
        }
        prev = r;
    }
    true
}

// Question 19 on a list, then whether its records are good and in order: `refusal` where they are not.
pub fn check_order<O: Order>(
    order: &O,
    refusal: ListRefusal,
    list: &[u8],
) -> Result<usize, ListRefusal>
    ensures { list_outcome result ≡ check_list O.Item.kind (O.is_good order.now) (O.may_follow order.now) O.least (list_number refusal) list.now }
{
    if list.len() % O::Item::LEN != 0 {
        return Err(ListRefusal::Length);
    }
    if !accepted(order, list) {
        return Err(refusal);
    }
    Ok(list.len() / O::Item::LEN)
}
