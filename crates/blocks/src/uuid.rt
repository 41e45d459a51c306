// A UUID of 16 bytes at a place in a slice. The caller has seen that the bytes lie in the slice.
ghost use Rattle.std.specs.Prelude.{◌≡◌, ◌+◌, ◌≤◌, length};
ghost use Rattle.codec.specs.Bytes.{bytes_at};
ghost use Rattle.blocks.specs.Check.{same};

// Do the 16 bytes at `at` equal `uuid`?
pub(crate) fn is_uuid(b: &[u8], at: usize, uuid: [u8; 16]) -> bool
    requires { at + 16 ≤ length b.now }
    ensures { result ≡ same (bytes_at b.now at 16) uuid }
{
    b[at..at + 16] == uuid[..]
}
