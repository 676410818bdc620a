// Joints out of their table, and what a good joint is, but for its number.
ghost use Rattle.std.specs.Prelude.{◌≡◌, ◌<◌, ◌≤◌};
ghost use Rattle.spatial.specs.All.{all};
ghost use Rattle.model.specs.Tables.{kind_of, code_of, joint_of, entry_at, joint_at};
ghost use Rattle.model.specs.Joints.{axis_fits, fits, good_joint};

use crate::links::times;
use crate::{Joint, JointEntry, JointType, Model};
use fit::finite::finite_vector;
use fit::unit::{is_unit_quaternion, is_unit_vector};
use spatial::constants::zero_vector;

/// The kind of a number; only 0, 1 and 2 are good.
#[tactic(auto, unfolding(crate::specs::Tables::kind_of))]
pub(crate) fn kind_of(code: u8) -> JointType
    ensures { result ≡ kind_of code }
{
    match code {
        0 => JointType::Fixed,
        1 => JointType::Revolute,
        _ => JointType::Prismatic,
    }
}

impl From<JointType> for u8 {
    ghost from_gives = { λ kind code. code ≡ code_of kind };

    fn from(kind: JointType) -> u8 {
        match kind {
            JointType::Fixed => 0,
            JointType::Revolute => 1,
            JointType::Prismatic => 2,
        }
    }
}

impl JointEntry {
    /// The joint that an entry means.
    pub fn joint(self) -> Joint
        ensures { result ≡ joint_of self }
    {
        Joint {
            kind: kind_of(self.kind),
            parent: self.parent,
            number: self.number,
            origin: self.origin,
            axis: self.axis,
        }
    }
}

// A fixed joint's axis may have any length.
#[tactic(auto, unfolding(crate::specs::Joints::axis_fits))]
fn axis_good(joint: Joint) -> bool
    ensures { result ≡ axis_fits joint }
{
    match joint.kind {
        JointType::Fixed => true,
        JointType::Revolute | JointType::Prismatic => is_unit_vector(joint.axis),
    }
}

// A known kind, a parent before it, and a rotation and an axis of unit length.
#[tactic(auto, unfolding(crate::specs::Joints::fits))]
fn joint_fits(j: usize, code: u8, joint: Joint) -> bool
    ensures { result ≡ fits j code joint }
{
    let turn = is_unit_quaternion(joint.origin.rotation);
    let axis = axis_good(joint);
    (code <= 2) & (joint.parent <= j) & turn & axis
}

// The first joints of a model are good, but for their numbers. A rotation of unit length is finite.
pub(crate) fn joints_good(model: &Model, count: usize) -> bool
    requires { count ≤ 63 }
    ensures { result ≡ all count (λ j. good_joint j (entry_at model.now j).kind (joint_at model.now j)) }
{
    let mut good = true;
    let mut a = zero_vector();
    let mut b = zero_vector();
    for j in 0..count {
        let entry = model.joints[j];
        let joint = entry.joint();
        a = times(a, joint.origin.translation);
        b = times(b, joint.axis);
        good = good & joint_fits(j, entry.kind, joint);
    }
    let finite = finite_vector(times(a, b));
    good & finite
}
