// The frame of a joint at its pose.
ghost use Rattle.std.specs.Prelude.{◌≡◌, true, ◌<◌, length, get_or};
ghost use Rattle.model.specs.Poses.{no_pose};
ghost use Rattle.model.specs.View.{moves};
ghost use Rattle.dynamics.specs.Frames.{half_turn, joint_frame};

use model::{Joint, JointType, Pose};
use spatial::rotations::{product, rotate};
use spatial::vectors::{add, scale};
use spatial::{Frame, Quaternion, Vector3};

#[tactic(auto, unfolding(crate::specs::Frames::half_turn))]
fn half_turn(s: f64, c: f64, axis: Vector3) -> Quaternion
    ensures { result ≡ half_turn s c axis }
{
    Quaternion {
        w: c,
        i: s * axis.x,
        j: s * axis.y,
        k: s * axis.z,
    }
}

/// A joint's frame at a pose. A pose of another kind than the joint's leaves the origin.
#[inline(always)]
#[tactic(auto, unfolding(crate::specs::Frames::joint_frame))]
pub fn joint_frame(joint: Joint, pose: Pose) -> Frame
    ensures { result ≡ joint_frame joint.kind joint.origin joint.axis pose }
{
    let origin = joint.origin;
    match (joint.kind, pose) {
        (JointType::Revolute, Pose::Half(s, c)) => Frame {
            rotation: product(origin.rotation, half_turn(s, c, joint.axis)),
            translation: origin.translation,
        },
        (JointType::Prismatic, Pose::Slide(x)) => {
            let way = rotate(origin.rotation, scale(joint.axis, x));
            Frame {
                rotation: origin.rotation,
                translation: add(origin.translation, way),
            }
        }
        _ => origin,
    }
}

/// A joint's frame at its pose in the list.
#[inline(always)]
#[tactic(auto, unfolding(crate::specs::Frames::joint_frame))]
pub fn frame_in(joint: Joint, positions: &[Pose]) -> Frame
    requires { moves joint.kind ≡ true → joint.number < length positions.now }
    ensures { result ≡ joint_frame joint.kind joint.origin joint.axis (get_or positions.now joint.number no_pose) }
{
    match joint.kind {
        JointType::Fixed => joint.origin,
        JointType::Revolute | JointType::Prismatic => joint_frame(joint, positions[joint.number]),
    }
}
