//! Numbers as bytes, the lowest byte first.
//!
//! The clause `undone` of `LittleEndian::from_little_endian` promises for every width that reading
//! undoes writing and writing undoes reading.
#![tactic(auto)]

ghost use Rattle.std.specs.Prelude.{◌≡◌, ℕ};
ghost use Rattle.little_endian.specs.Little.{le_number, le_bytes, EveryWidth};

/// Numbers of N bytes.
pub trait LittleEndian<const N: usize>: Copy {
    // the number that a value is
    ghost value: { Self → ℕ };

    /// The number that the bytes mean.
    fn from_little_endian(b: &[u8; N]) -> Self
        ensures value { value result ≡ le_number b.now }
        ensures undone { EveryWidth };

    /// The number's bytes.
    fn to_little_endian(self) -> [u8; N]
        ensures { result ≡ le_bytes N (value self) };
}

impl LittleEndian<2> for u16 {
    ghost value = { λ n. n };

    #[tactic(auto, using(crate::proofs::Widths::every_width))]
    fn from_little_endian(b: &[u8; 2]) -> u16 {
        u16::from_le_bytes(*b)
    }

    fn to_little_endian(self) -> [u8; 2] {
        u16::to_le_bytes(self)
    }
}

impl LittleEndian<4> for u32 {
    ghost value = { λ n. n };

    #[tactic(auto, using(crate::proofs::Widths::every_width))]
    fn from_little_endian(b: &[u8; 4]) -> u32 {
        u32::from_le_bytes(*b)
    }

    fn to_little_endian(self) -> [u8; 4] {
        u32::to_le_bytes(self)
    }
}

impl LittleEndian<8> for u64 {
    ghost value = { λ n. n };

    #[tactic(auto, using(crate::proofs::Widths::every_width))]
    fn from_little_endian(b: &[u8; 8]) -> u64 {
        u64::from_le_bytes(*b)
    }

    fn to_little_endian(self) -> [u8; 8] {
        u64::to_le_bytes(self)
    }
}
