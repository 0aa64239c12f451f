// Moving bytes.
ghost use Rattle.std.specs.Prelude.{◌≡◌, ◌++◌, ◌≤◌, length, drop};

// Writes src at the start of dst and leaves the rest. `copy_from_slice` would call C's memmove, and the archive may call nothing. One
// index stands for both slices, as in what the loop keeps.
pub fn copy_in(dst: &mut [u8], src: &[u8])
    requires { length src.now ≤ length dst.old }
    ensures { dst.new ≡ src.now ++ drop (length src.now) dst.old }
{
    for i in 0..src.len() {
        dst[i] = src[i];
    }
}
