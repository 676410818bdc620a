// The numbers of a frame, which may be too short for them: each byte past its end is 0.
ghost use Rattle.std.specs.Prelude.{◌≡◌, ◌<◌, get_or};
ghost use Rattle.wire.specs.Big.{be16, be32, be64, f64_at};
ghost use Rattle.frames.specs.Fields.{vector_at, wrench_at};

use spatial::{Vector3, Wrench};
use wire::read::double;

/// The byte at a place.
pub fn byte_at(s: &[u8], at: usize) -> u8
    ensures { result ≡ get_or s.now at 0 }
{
    if at < s.len() { s[at] } else { 0 }
}

/// The two bytes at a place, as a number.
#[tactic(auto, unfolding(wire::specs::Big::be16))]
pub fn u16_at(s: &[u8], at: usize) -> u16
    requires { at < 65536 }
    ensures { result ≡ be16 s.now at }
{
    u16::from_be_bytes([byte_at(s, at), byte_at(s, at + 1)])
}

/// The four bytes at a place.
#[tactic(auto, unfolding(wire::specs::Big::be32))]
pub fn u32_at(s: &[u8], at: usize) -> u32
    requires { at < 65534 }
    ensures { result ≡ be32 s.now at }
{
    (u16_at(s, at) as u32) * 65536 + u16_at(s, at + 2) as u32
}

/// The eight bytes at a place.
#[tactic(auto, unfolding(wire::specs::Big::be64))]
pub fn u64_at(s: &[u8], at: usize) -> u64
    requires { at < 65530 }
    ensures { result ≡ be64 s.now at }
{
    (u32_at(s, at) as u64) * 4294967296 + u32_at(s, at + 4) as u64
}

/// The double at a place.
#[tactic(auto, unfolding(wire::specs::Big::f64_at))]
pub fn f64_at(s: &[u8], at: usize) -> f64
    requires { at < 65530 }
    ensures { result ≡ f64_at s.now at }
{
    double(u64_at(s, at))
}

/// The three doubles at a place.
pub fn vector_at(s: &[u8], at: usize) -> Vector3
    requires { at < 65514 }
    ensures { result ≡ vector_at s.now at }
{
    Vector3 {
        x: f64_at(s, at),
        y: f64_at(s, at + 8),
        z: f64_at(s, at + 16),
    }
}

/// The torque at a place, and the force after it.
pub fn wrench_at(s: &[u8], at: usize) -> Wrench
    requires { at < 65490 }
    ensures { result ≡ wrench_at s.now at }
{
    Wrench {
        torque: vector_at(s, at),
        force: vector_at(s, at + 24),
    }
}
