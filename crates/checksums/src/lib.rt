// A checksum that takes in one number after the other.
#![tactic(auto)]

ghost use Rattle.std.specs.Prelude.{◌≡◌, ℕ, ◌+◌, ◌*◌, ◌<◌, ◌≤◌};
ghost use Rattle.checksums.specs.Checksum.{folded, folded_all};

// To take v in makes it (FACTOR × itself + v) mod MODULUS.
#[derive(Clone, Copy)]
pub struct Checksum<const FACTOR: u64, const MODULUS: u64> {
    value: u64,
    ghost below: { value < MODULUS },
    ghost fits: { FACTOR * MODULUS + 65535 ≤ 18446744073709551615 },
}

impl<const FACTOR: u64, const MODULUS: u64> Checksum<FACTOR, MODULUS> {
    pub fn new(value: u64) -> Self
        requires below { value < MODULUS }
        requires fits { FACTOR * MODULUS + 65535 ≤ 18446744073709551615 }
        ensures { result.value ≡ value }
    {
        Checksum { value }
    }

    pub fn value(&self) -> u64
        ensures { result ≡ self.now.value }
    {
        self.value
    }

    pub fn fold<V: Into<u16>>(&mut self, v: V)
        ensures { (number : ℕ) × V.converts v number × (self.new.value ≡ folded FACTOR MODULUS self.old.value number) }
    {
        let v: u16 = v.into();
        self.value = (FACTOR * self.value + u64::from(v)) % MODULUS;
    }

    // The first byte is taken in first.
    pub fn fold_all(&mut self, bytes: &[u8])
        ensures { self.new.value ≡ folded_all FACTOR MODULUS self.old.value bytes.now }
    {
        for &byte in bytes {
            self.fold(byte);
        }
    }
}
