// Bytes copied into lent memory.
ghost use Rattle.std.specs.Prelude.{◌≡◌, ◌+◌, ◌≤◌, length};
ghost use Rattle.codec.specs.Bytes.{with_bytes};

// Copies `src` into `dst` from a place on. By a loop: the library's copy of a slice calls C's memmove, and of C's functions the archives call memset alone.
pub fn copy(src: &[u8], dst: &mut [u8], at: usize)
    requires { at + length src.now ≤ length dst.old }
    ensures { dst.new ≡ with_bytes dst.old at src.now }
{
    for i in 0..src.len() {
        dst[at + i] = src[i];
    }
}
