// The line that the plan program reads.
ghost use Rattle.std.specs.Prelude.{◌≡◌, true, false, cond, MatchOption, Some, None, position, ◌==◌};
ghost use Rattle.plan_text.specs.Line.{has_space, word, rest, kind_of, is_number, value, request_of, line_of, request};

use blocks::kind::TreeKind;

// A plan that is asked for.
#[derive(Clone, Copy)]
pub(crate) struct Request {
    pub kind: TreeKind,
    pub blocksize: u64,
    pub records: u64,
}

// The place of the first space.
fn first_space(s: &[u8]) -> Option<usize>
    ensures { result ≡ position (λ b. b == 32) s.now }
{
    s.iter().position(|b| *b == b' ')
}

// What stands before the first space, and what stands after it.
fn parted(s: &[u8]) -> Option<(&[u8], &[u8])>
    ensures { MatchOption result (has_space s.now ≡ false) (λ p. (has_space s.now ≡ true) × (p.0.now ≡ word s.now) × (p.1.now ≡ rest s.now)) }
{
    let i = first_space(s)?;
    Some((&s[..i], &s[i + 1..]))
}

// The tree of a name.
fn kind_of(name: &[u8]) -> Option<TreeKind>
    ensures { result ≡ kind_of name.now }
{
    if name == b"rmap".as_slice() {
        Some(TreeKind::Rmap)
    } else if name == b"refcount".as_slice() {
        Some(TreeKind::Refcount)
    } else {
        None
    }
}

// The number of 1 to 18 digits.
fn number_of(s: &[u8]) -> Option<u64>
    ensures { result ≡ cond (is_number s.now) (Some (value s.now)) None }
{
    if s.is_empty() || 18 < s.len() {
        return None;
    }
    let mut v: u64 = 0;
    for b in s {
        if !b.is_ascii_digit() {
            return None;
        }
        v = v * 10 + (*b - b'0') as u64;
    }
    Some(v)
}

// The three parts of a line.
fn request_of(name: &[u8], size: &[u8], count: &[u8]) -> Option<Request>
    ensures { result ≡ request_of (kind_of name.now) size.now count.now }
{
    let kind = kind_of(name)?;
    let blocksize = number_of(size)?;
    let records = number_of(count)?;
    Some(Request {
        kind,
        blocksize,
        records,
    })
}

// The line without its newline.
fn line_of(s: &[u8]) -> Option<Request>
    ensures { result ≡ line_of s.now }
{
    let (name, after) = parted(s)?;
    let (size, count) = parted(after)?;
    request_of(name, size, count)
}

// What the input asks for, if it is such a line.
pub(crate) fn read(input: &[u8]) -> Option<Request>
    ensures { result ≡ request input.now }
{
    line_of(input.strip_suffix(b"\n").unwrap_or(input))
}
