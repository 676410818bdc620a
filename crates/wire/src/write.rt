// Numbers written as bytes.
ghost use Rattle.std.specs.Prelude.{◌∷◌, [], ◌≡◌, ◌+◌, ◌*◌, ◌%◌, ◌≤◌, ◌<◌, length};
ghost use Rattle.std.specs.Float.{binary64};
ghost use Rattle.std.specs.Float.Ieee.{to_bits};
ghost use Rattle.wire.specs.Big.{bytes16, bytes32, bytes64, float_bytes};
ghost use Rattle.wire.specs.Placed.{placed};

use std::num::f64_to_bits_with_nan;

#[tactic(auto, unfolding(crate::specs::Placed::placed))]
pub fn put_u8(out: &mut [u8], at: usize, byte: u8)
    requires { at < length out.old }
    ensures { out.new ≡ placed out.old at (byte ∷ []) }
{
    out[at] = byte;
}

fn low_byte(n: usize) -> u8
    ensures { result ≡ n % 256 }
{
    (n % 256) as u8
}

pub fn put_u16(out: &mut [u8], at: usize, n: usize)
    requires { at + 2 ≤ length out.old }
    ensures { out.new ≡ placed out.old at (bytes16 n) }
{
    let high = low_byte(n / 256);
    let low = low_byte(n);
    put_u8(out, at, high);
    put_u8(out, at + 1, low);
}

pub fn put_u32(out: &mut [u8], at: usize, n: usize)
    requires { at + 4 ≤ length out.old }
    ensures { out.new ≡ placed out.old at (bytes32 n) }
{
    put_u16(out, at, n / 65536);
    put_u16(out, at + 2, n);
}

pub fn put_u64(out: &mut [u8], at: usize, n: u64)
    requires { at + 8 ≤ length out.old }
    ensures { out.new ≡ placed out.old at (bytes64 n) }
{
    put_u32(out, at, (n / 4294967296) as usize);
    put_u32(out, at + 4, n as usize);
}

/// The bit pattern of a double, a NaN's with only its highest digit set.
pub fn pattern(x: f64) -> u64
    ensures { result ≡ to_bits binary64 x }
{
    f64_to_bits_with_nan(x)
}

pub fn put_f64(out: &mut [u8], at: usize, x: f64)
    requires { at + 8 ≤ length out.old }
    ensures { out.new ≡ placed out.old at (bytes64 (to_bits binary64 x)) }
{
    put_u64(out, at, pattern(x));
}

// The bits of the doubles of a table, one after another. Inlined at a table of known length, the loop is unrolled and a number's eight bytes
// are stored one by one.
#[inline(never)]
pub fn put_floats(out: &mut [u8], at: usize, xs: &[f64])
    requires { at + 8 * length xs.now ≤ length out.old }
    ensures { out.new ≡ placed out.old at (float_bytes xs.now) }
{
    for (i, x) in xs.iter().enumerate() {
        put_f64(out, at + 8 * i, *x);
    }
}
