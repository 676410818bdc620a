// The unit test of pairs, axes and rotations.
ghost use Rattle.std.specs.Prelude.{◌≡◌};
ghost use Rattle.fit.specs.Unit.{is_unit, unit_pair, unit_vector, unit_quaternion};

use spatial::vectors::dot;
use spatial::{Quaternion, Vector3};

// 1 - 2^-40 and 1 + 2^-40.
const UNIT_LOW: f64 = 0.9999999999990905;

const UNIT_HIGH: f64 = 1.0000000000009095;

/// Whether a sum of squares is 1 to within 2^-40.
pub fn is_unit(sum: f64) -> bool
    ensures { result ≡ is_unit sum }
{
    (UNIT_LOW <= sum) & (sum <= UNIT_HIGH)
}

/// Whether a sine and a cosine are a unit pair.
#[tactic(auto, unfolding(crate::specs::Unit::unit_pair))]
pub fn is_unit_pair(s: f64, c: f64) -> bool
    ensures { result ≡ unit_pair s c }
{
    is_unit(s * s + c * c)
}

/// Whether a vector has length 1.
#[tactic(auto, unfolding(crate::specs::Unit::unit_vector))]
pub fn is_unit_vector(v: Vector3) -> bool
    ensures { result ≡ unit_vector v }
{
    is_unit(dot(v, v))
}

/// Whether a quaternion is a rotation.
#[tactic(auto, unfolding(crate::specs::Unit::unit_quaternion))]
pub fn is_unit_quaternion(q: Quaternion) -> bool
    ensures { result ≡ unit_quaternion q }
{
    is_unit(q.w * q.w + q.i * q.i + q.j * q.j + q.k * q.k)
}
