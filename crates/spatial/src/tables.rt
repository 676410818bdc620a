// Wrenches in a lent table, six numbers each: torque, then force.
ghost use Rattle.std.specs.Prelude.{◌≡◌, ◌+◌, ◌*◌, ◌≤◌, length};
ghost use Rattle.spatial.specs.Tables.{wrench_at};

use crate::{Vector3, Wrench};

// The wrench at place i.
pub fn wrench_at(s: &[f64], i: usize) -> Wrench
    requires { 6 * i + 6 ≤ length s.now }
    ensures { result ≡ wrench_at s.now i }
{
    let k = 6 * i;
    Wrench {
        torque: Vector3 {
            x: s[k],
            y: s[k + 1],
            z: s[k + 2],
        },
        force: Vector3 {
            x: s[k + 3],
            y: s[k + 4],
            z: s[k + 5],
        },
    }
}
