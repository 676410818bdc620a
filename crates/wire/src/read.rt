// Numbers read from bytes.
ghost use Rattle.std.specs.Prelude.{◌≡◌, ◌+◌, ◌≤◌, ◌<◌, length};
ghost use Rattle.std.specs.Float.{binary64};
ghost use Rattle.std.specs.Float.Ieee.{of_bits};
ghost use Rattle.wire.specs.Big.{be16, be32, be64, f64_at};

use std::num::f64_from_bits_with_nan;

/// The two bytes at a place, as a number.
#[tactic(auto, unfolding(crate::specs::Big::be16))]
pub fn u16_at(s: &[u8], at: usize) -> u16
    requires { at + 2 ≤ length s.now }
    ensures { result ≡ be16 s.now at }
{
    u16::from_be_bytes([s[at], s[at + 1]])
}

/// The four bytes at a place.
#[tactic(auto, unfolding(crate::specs::Big::be32, crate::specs::Big::be16))]
pub fn u32_at(s: &[u8], at: usize) -> u32
    requires { at + 4 ≤ length s.now }
    ensures { result ≡ be32 s.now at }
{
    u32::from_be_bytes([s[at], s[at + 1], s[at + 2], s[at + 3]])
}

/// The eight bytes at a place.
#[tactic(auto, unfolding(crate::specs::Big::be64, crate::specs::Big::be32, crate::specs::Big::be16))]
pub fn u64_at(s: &[u8], at: usize) -> u64
    requires { at + 8 ≤ length s.now }
    ensures { result ≡ be64 s.now at }
{
    u64::from_be_bytes([
        s[at],
        s[at + 1],
        s[at + 2],
        s[at + 3],
        s[at + 4],
        s[at + 5],
        s[at + 6],
        s[at + 7],
    ])
}

/// A count of two bytes.
pub fn size_at(s: &[u8], at: usize) -> usize
    requires { at + 2 ≤ length s.now }
    ensures { (result ≡ be16 s.now at) × (result < 65536) }
{
    u16_at(s, at) as usize
}

/// The double of a bit pattern; every NaN pattern gives a NaN.
pub fn double(bits: u64) -> f64
    ensures { result ≡ of_bits binary64 bits }
{
    f64_from_bits_with_nan(bits)
}

/// The double at a place.
#[tactic(auto, unfolding(crate::specs::Big::f64_at))]
pub fn f64_at(s: &[u8], at: usize) -> f64
    requires { at + 8 ≤ length s.now }
    ensures { result ≡ f64_at s.now at }
{
    double(u64_at(s, at))
}
