// The buffers that calls are lent: the bytes that they hold at first, and how many of their bytes are lent.
ghost use Rattle.std.specs.Prelude.{◌≤◌};

// Byte j is (first + j × step) mod 256.
pub fn rising(bytes: &mut [u8], first: u8, step: u8) {
    for (j, byte) in bytes.iter_mut().enumerate() {
        *byte = first.wrapping_add(step.wrapping_mul((j % 256) as u8));
    }
}

// Byte i is (i + i ÷ 256) mod 256.
pub fn staggered(bytes: &mut [u8]) {
    for (i, byte) in bytes.iter_mut().enumerate() {
        *byte = ((i % 256) as u8).wrapping_add((i / 256 % 256) as u8);
    }
}

// So many bytes, or all that there are.
pub fn at_most(wanted: usize, all: usize) -> usize
    ensures { result ≤ all }
{
    wanted.min(all)
}

// The first bytes, so many, or all where there are fewer.
pub fn lent(bytes: &[u8], wanted: usize) -> &[u8] {
    &bytes[..at_most(wanted, bytes.len())]
}

pub fn lent_mut(bytes: &mut [u8], wanted: usize) -> &mut [u8] {
    let count = at_most(wanted, bytes.len());
    &mut bytes[..count]
}
