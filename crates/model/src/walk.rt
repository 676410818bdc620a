// A quick test of a model and its positions, joint by joint, for a sweep that passes each joint once. What passes is good; what does not
// may be good too, since moving numbers are taken only as they rise with the joints. Whether all floats are finite is told at the end, by
// a product that is 0 as long as they are.
ghost use Rattle.std.specs.Prelude.{false, ◌≡◌, ◌<◌, ◌≤◌, eqb, length};
ghost use Rattle.model.specs.Walk.{stays_in, entry_passes, sound, joint_passes, next_after, times_link, times_joint};

use crate::links::times;
use crate::{Joint, Link, Pose};
use fit::finite::is_finite;
use fit::unit::{is_unit_pair, is_unit_quaternion, is_unit_vector};
use spatial::Vector3;
use spatial::vectors::scale;

/// Joint j hangs on a link before it, and has its place in the lists where it moves.
#[tactic(auto, unfolding(crate::specs::Walk::stays_in))]
pub fn stays(j: usize, code: u8, joint: Joint, moving: usize) -> bool
    ensures { result ≡ stays_in j code joint moving }
{
    if code == 0 {
        return joint.parent <= j;
    }
    (joint.parent <= j) & (joint.number < moving)
}

// A revolute joint's pair, or a prismatic joint's distance.
fn entry_passes(code: u8, pose: Pose) -> bool
    ensures { result ≡ entry_passes code pose }
{
    match pose {
        Pose::Half(s, c) => (code == 1) & is_unit_pair(s, c),
        Pose::Slide(x) => (code != 1) & is_finite(x),
    }
}

// What is asked of every joint, and of the link that it leads to.
#[tactic(auto, unfolding(crate::specs::Walk::sound))]
fn sound(code: u8, joint: Joint, link: Link) -> bool
    ensures { result ≡ sound code joint link }
{
    let turn = is_unit_quaternion(joint.origin.rotation);
    (code <= 2) & (0.0 <= link.mass) & turn
}

/// A joint with its link and its entry of the positions, where the joints before it hold the numbers below next.
#[tactic(auto, unfolding(crate::specs::Walk::joint_passes))]
pub fn joint_passes(code: u8, joint: Joint, link: Link, next: usize, positions: &[Pose]) -> bool
    requires { eqb code 0 ≡ false → joint.number < length positions.now }
    ensures { result ≡ joint_passes code joint link next positions.now }
{
    let number = joint.number;
    let fine = sound(code, joint, link);
    if code == 0 {
        return fine & (number == 65535);
    }
    let axis = is_unit_vector(joint.axis);
    let entry = entry_passes(code, positions[number]);
    fine & (number == next) & axis & entry
}

/// The first number that no joint up to this one holds.
#[tactic(auto, unfolding(crate::specs::Walk::next_after))]
pub fn next_after(code: u8, next: usize) -> usize
    requires { next ≤ 63 }
    ensures { result ≡ next_after code next }
{
    if code == 0 {
        return next;
    }
    next + 1
}

/// The product with a link's moment and its inertia's rows: a finite moment has a finite mass and a finite centre.
#[tactic(auto, unfolding(crate::specs::Walk::times_link))]
pub fn times_link(zero: Vector3, link: Link) -> Vector3
    ensures { result ≡ times_link zero link }
{
    let moment = scale(link.center, link.mass);
    let begun = times(times(zero, moment), link.inertia.x);
    times(times(begun, link.inertia.y), link.inertia.z)
}

/// The product with a joint's translation and its axis.
#[tactic(auto, unfolding(crate::specs::Walk::times_joint))]
pub fn times_joint(zero: Vector3, joint: Joint) -> Vector3
    ensures { result ≡ times_joint zero joint }
{
    times(times(zero, joint.origin.translation), joint.axis)
}
