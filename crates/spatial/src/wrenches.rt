// Wrenches: their sum, and what one is at the parent and in the world.
ghost use Rattle.std.specs.Prelude.{◌≡◌};
ghost use Rattle.spatial.specs.Wrenches.{wrench_sum, wrench_to_parent, world_wrench};

use crate::rotations::rotate;
use crate::vectors::{add, cross};
use crate::{Frame, Quaternion, Wrench};

pub fn add_wrench(a: Wrench, b: Wrench) -> Wrench
    ensures { result ≡ wrench_sum a b }
{
    Wrench {
        torque: add(a.torque, b.torque),
        force: add(a.force, b.force),
    }
}

// A child's wrench, at its parent's origin and in its parent's axes.
pub fn wrench_to_parent(f: Frame, w: Wrench) -> Wrench
    ensures { result ≡ wrench_to_parent f w }
{
    let force = rotate(f.rotation, w.force);
    Wrench {
        torque: add(rotate(f.rotation, w.torque), cross(f.translation, force)),
        force,
    }
}

// The root's wrench in world axes, by the base rotation.
pub fn world_wrench(base: Quaternion, w: Wrench) -> Wrench
    ensures { result ≡ world_wrench base w }
{
    Wrench {
        torque: rotate(base, w.torque),
        force: rotate(base, w.force),
    }
}
