// The figures in the lent output.
ghost use Rattle.std.specs.Prelude.{◌≡◌, true, ◌++◌, ◌<◌, ◌≤◌, length, drop};
ghost use Rattle.fit.specs.Finite.{wrench_numbers};
ghost use Rattle.spatial.specs.Wrenches.{world_wrench};
ghost use Rattle.model.specs.View.{moves};
ghost use Rattle.dynamics.specs.Figures.{figure};
ghost use Rattle.dynamics.specs.Output.{put_of};

use model::{Joint, JointType};
use spatial::vectors::dot;
use spatial::wrenches::world_wrench;
use spatial::{Quaternion, Vector3, Wrench};

// What a joint bears of the total at its link.
#[tactic(auto, unfolding(crate::specs::Figures::figure))]
fn figure(kind: JointType, w: Wrench, axis: Vector3) -> f64
    ensures { result ≡ figure kind w axis }
{
    match kind {
        JointType::Fixed => 0.0,
        JointType::Revolute => dot(w.torque, axis),
        JointType::Prismatic => dot(w.force, axis),
    }
}

/// A moving joint's figure, stored at its number.
pub fn put(joint: Joint, total: Wrench, output: &mut [f64])
    requires { moves joint.kind ≡ true → joint.number < length output.old }
    ensures { output.new ≡ put_of joint total output.old }
{
    let kind = joint.kind;
    let number = joint.number;
    let x = figure(kind, total, joint.axis);
    match kind {
        JointType::Fixed => {}
        JointType::Revolute | JointType::Prismatic => {
            output[number] = x;
        }
    }
}

/// The root's wrench in world axes, in the first six places.
pub fn put_root(base: Quaternion, root: Wrench, output: &mut [f64])
    requires { 6 ≤ length output.old }
    ensures { output.new ≡ wrench_numbers (world_wrench base root) ++ drop 6 output.old }
{
    let w = world_wrench(base, root);
    output[0] = w.torque.x;
    output[1] = w.torque.y;
    output[2] = w.torque.z;
    output[3] = w.force.x;
    output[4] = w.force.y;
    output[5] = w.force.z;
}
