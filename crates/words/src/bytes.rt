// Words of 8 bytes, low byte first, and zeros, in a slice of bytes: what the three calls at the end share goes by places that are there.
ghost use Rattle.std.specs.Prelude.{◌≡◌, ◌+◌, ◌≤◌, length, replicate};
ghost use Rattle.model.specs.Memory.{load_bytes, bytes_of, overwrite};

// The number that n bytes from i on make.
fn read(h: &[u8], i: usize, n: usize) -> usize
    requires { (i + n ≤ length h.now) × (n ≤ 8) }
    ensures { result ≡ load_bytes n h.now i }
{
    let mut bytes = [0; 8];
    bytes[..n].copy_from_slice(&h[i..i + n]);
    usize::from_le_bytes(bytes)
}

// The n low bytes of v, from i on.
fn write(h: &mut [u8], i: usize, v: usize, n: usize)
    requires { (i + n ≤ length h.old) × (n ≤ 8) }
    ensures { h.new ≡ overwrite i (bytes_of n v) h.old }
{
    h[i..i + n].copy_from_slice(&v.to_le_bytes()[..n]);
}

// Makes the n bytes from i on 0.
fn fill(h: &mut [u8], i: usize, n: usize)
    requires { i + n ≤ length h.old }
    ensures { h.new ≡ overwrite i (replicate n 0) h.old }
{
    h[i..i + n].fill(0);
}

// A whole word is read by a count that the compiler knows, so that it is one load. Tried for speed without the branch, here and in
// `store_word`: the run of script's sample took 1.23 times the instructions.
pub fn load_word(h: &[u8], i: usize) -> usize
    ensures { result ≡ load_bytes 8 h.now i }
{
    let len = h.len();
    if len <= i {
        return 0;
    }
    let left = len - i;
    if 8 <= left {
        return read(h, i, 8);
    }
    read(h, i, left)
}

// A whole word is written so too.
pub fn store_word(h: &mut [u8], i: usize, v: usize)
    ensures { h.new ≡ overwrite i (bytes_of 8 v) h.old }
{
    let len = h.len();
    if len <= i {
        return;
    }
    let left = len - i;
    if 8 <= left {
        write(h, i, v, 8);
        return;
    }
    write(h, i, v, left);
}

pub fn zero(h: &mut [u8], i: usize, n: usize)
    ensures { h.new ≡ overwrite i (replicate n 0) h.old }
{
    let len = h.len();
    if i < len {
        fill(h, i, n.min(len - i));
    }
}
