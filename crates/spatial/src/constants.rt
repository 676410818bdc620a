// Zeros, and the gravity that 01 names.
ghost use Rattle.std.specs.Prelude.{◌≡◌};
ghost use Rattle.spatial.specs.Constants.{standard_gravity, zero_twist, zero_vector, zero_wrench};

use crate::{Twist, Vector3, Wrench};

const GRAVITY: f64 = 9.80665;

pub fn standard_gravity() -> Vector3
    ensures { result ≡ standard_gravity }
{
    Vector3 {
        x: 0.0,
        y: 0.0,
        z: GRAVITY,
    }
}

pub fn zero_vector() -> Vector3
    ensures { result ≡ zero_vector }
{
    Vector3 {
        x: 0.0,
        y: 0.0,
        z: 0.0,
    }
}

pub fn zero_twist() -> Twist
    ensures { result ≡ zero_twist }
{
    Twist {
        angular: zero_vector(),
        linear: zero_vector(),
    }
}

pub fn zero_wrench() -> Wrench
    ensures { result ≡ zero_wrench }
{
    Wrench {
        torque: zero_vector(),
        force: zero_vector(),
    }
}
