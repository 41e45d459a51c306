// Numbers at a place in a slice of bytes. XFS stores every number big-endian but the check of a block, which is little-endian: `le32` and
// `put_le32` are for that alone. The caller has seen that the bytes lie in the slice.
// A function for each width, of one line: the library's from_be_bytes and to_be_bytes are no trait's, so a generic one would be no plainer.
ghost use Rattle.std.specs.Prelude.{◌≡◌, ◌+◌, ◌≤◌, length};
ghost use Rattle.codec.specs.Bytes.{bytes_at, with_bytes, be_of, be_bytes, le_of, le_bytes};

// The `N` bytes at `off`, which are one load of that width.
fn array_at<const N: usize>(b: &[u8], off: usize) -> [u8; N]
    requires { off + N ≤ length b.now }
    ensures { result ≡ bytes_at b.now off N }
{
    let mut bytes = [0; N];
    bytes.copy_from_slice(&b[off..off + N]);
    bytes
}

// Puts `N` bytes at `off`, which are one store of that width.
fn put_array<const N: usize>(b: &mut [u8], off: usize, bytes: &[u8; N])
    requires { off + N ≤ length b.old }
    ensures { b.new ≡ with_bytes b.old off bytes.now }
{
    b[off..off + N].copy_from_slice(bytes);
}

// Read a big-endian `u16` at `off`.
pub fn be16(b: &[u8], off: usize) -> u16
    requires { off + 2 ≤ length b.now }
    ensures { result ≡ be_of (bytes_at b.now off 2) }
{
    u16::from_be_bytes(array_at(b, off))
}

// Read a big-endian `u32` at `off`.
pub fn be32(b: &[u8], off: usize) -> u32
    requires { off + 4 ≤ length b.now }
    ensures { result ≡ be_of (bytes_at b.now off 4) }
{
    u32::from_be_bytes(array_at(b, off))
}

// Read a big-endian `u64` at `off`.
pub fn be64(b: &[u8], off: usize) -> u64
    requires { off + 8 ≤ length b.now }
    ensures { result ≡ be_of (bytes_at b.now off 8) }
{
    u64::from_be_bytes(array_at(b, off))
}

// Read a little-endian `u32` at `off`: the check of a block.
pub fn le32(b: &[u8], off: usize) -> u32
    requires { off + 4 ≤ length b.now }
    ensures { result ≡ le_of (bytes_at b.now off 4) }
{
    u32::from_le_bytes(array_at(b, off))
}

// Write `v` big-endian at `off`, in 2 bytes.
pub fn put_be16(b: &mut [u8], off: usize, v: u16)
    requires { off + 2 ≤ length b.old }
    ensures { b.new ≡ with_bytes b.old off (be_bytes 2 v) }
{
    put_array(b, off, &v.to_be_bytes());
}

// Write `v` big-endian at `off`, in 4 bytes.
pub fn put_be32(b: &mut [u8], off: usize, v: u32)
    requires { off + 4 ≤ length b.old }
    ensures { b.new ≡ with_bytes b.old off (be_bytes 4 v) }
{
    put_array(b, off, &v.to_be_bytes());
}

// Write `v` big-endian at `off`, in 8 bytes.
pub fn put_be64(b: &mut [u8], off: usize, v: u64)
    requires { off + 8 ≤ length b.old }
    ensures { b.new ≡ with_bytes b.old off (be_bytes 8 v) }
{
    put_array(b, off, &v.to_be_bytes());
}

// Write `v` little-endian at `off`: the check of a block.
pub fn put_le32(b: &mut [u8], off: usize, v: u32)
    requires { off + 4 ≤ length b.old }
    ensures { b.new ≡ with_bytes b.old off (le_bytes 4 v) }
{
    put_array(b, off, &v.to_le_bytes());
}
