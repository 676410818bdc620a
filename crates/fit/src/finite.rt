// The finite test, and the test that a double is +0. Nothing above looks inside either.
ghost use Rattle.std.specs.Prelude.{◌≡◌, Float};
ghost use Rattle.fit.specs.Finite.{is_finite, all_finite, vector_numbers, quaternion_numbers, matrix_numbers, twist_numbers, wrench_numbers, frame_numbers, is_plus_zero};

use spatial::{Frame, Matrix3, Quaternion, Twist, Vector3, Wrench};

/// Whether a double is finite: x - x is 0 where it is, and a NaN elsewhere.
#[tactic(auto, using(crate::proofs::FiniteLaws::sub_finite))]
pub fn is_finite(x: f64) -> bool
    ensures { result ≡ is_finite x }
{
    x - x == 0.0
}

/// Whether all of a table's numbers are finite, without a branch on any of them.
#[tactic(auto, using(crate::proofs::FiniteLaws::all_next), unfolding(crate::specs::Finite::all_finite))]
pub fn finite_numbers(s: &[f64]) -> bool
    ensures { result ≡ all_finite s.now }
{
    let mut good = true;
    for x in s {
        good = good & is_finite(*x);
    }
    good
}

/// Whether a vector's numbers are finite.
#[tactic(auto, using(crate::proofs::FiniteLaws::all_three))]
pub fn finite_vector(v: Vector3) -> bool
    ensures { result ≡ all_finite (vector_numbers v) }
{
    is_finite(v.x) & is_finite(v.y) & is_finite(v.z)
}

/// Whether a quaternion's numbers are finite.
#[tactic(auto, using(crate::proofs::FiniteLaws::all_four))]
pub fn finite_quaternion(q: Quaternion) -> bool
    ensures { result ≡ all_finite (quaternion_numbers q) }
{
    is_finite(q.w) & is_finite(q.i) & is_finite(q.j) & is_finite(q.k)
}

/// Whether a matrix's numbers are finite.
#[tactic(auto, using(crate::proofs::FiniteLaws::all_parts))]
pub fn finite_matrix(m: Matrix3) -> bool
    ensures { result ≡ all_finite (matrix_numbers m) }
{
    finite_vector(m.x) & finite_vector(m.y) & finite_vector(m.z)
}

/// Whether a twist's numbers are finite.
#[tactic(auto, using(crate::proofs::FiniteLaws::all_pair))]
pub fn finite_twist(t: Twist) -> bool
    ensures { result ≡ all_finite (twist_numbers t) }
{
    finite_vector(t.angular) & finite_vector(t.linear)
}

/// Whether a wrench's numbers are finite.
#[tactic(auto, using(crate::proofs::FiniteLaws::all_pair))]
pub fn finite_wrench(w: Wrench) -> bool
    ensures { result ≡ all_finite (wrench_numbers w) }
{
    finite_vector(w.torque) & finite_vector(w.force)
}

/// Whether a frame's numbers are finite.
#[tactic(auto, using(crate::proofs::FiniteLaws::all_pair))]
pub fn finite_frame(f: Frame) -> bool
    ensures { result ≡ all_finite (frame_numbers f) }
{
    finite_quaternion(f.rotation) & finite_vector(f.translation)
}

/// Whether a double is +0, and not -0.
pub fn is_plus_zero(x: f64) -> bool
    ensures { result ≡ is_plus_zero x }
{
    if x != x {
        return false;
    }
    f64::to_bits(x) == 0
}
