// The check of positions.
ghost use Rattle.std.specs.Prelude.{◌≡◌, ◌≤◌, length, cond, eqb};
ghost use Rattle.fit.specs.Finite.{all_finite};
ghost use Rattle.model.specs.Poses.{pose_numbers, pose_fits, pose_checked, positions_checked};
ghost use Rattle.model.specs.Marks.{numbering_to, kind_in, Coded};

use crate::joints::kind_of;
use crate::numbers::slot;
use crate::{JointType, Model, Pose};
use fit::finite::is_finite;
use fit::unit::is_unit_pair;
use refusal::Refusal;

fn pose_finite(pose: Pose) -> bool
    ensures { result ≡ all_finite (pose_numbers pose) }
{
    match pose {
        Pose::Half(s, c) => is_finite(s) & is_finite(c),
        Pose::Slide(x) => is_finite(x),
    }
}

// A pair that passes the unit test at a revolute joint, or a distance at a prismatic one.
fn pose_fits(kind: JointType, pose: Pose) -> bool
    ensures { result ≡ pose_fits kind pose }
{
    match (kind, pose) {
        (JointType::Revolute, Pose::Half(s, c)) => is_unit_pair(s, c),
        (JointType::Prismatic, Pose::Slide(_)) => true,
        _ => false,
    }
}

/// Refuses an entry that is not finite, or is not good at a joint of this kind.
#[tactic(auto, unfolding(crate::specs::Poses::pose_checked))]
pub fn check_pose(kind: JointType, pose: Pose) -> Result<(), Refusal>
    ensures { result ≡ pose_checked kind pose }
{
    if !pose_finite(pose) {
        return Err(Refusal::NonFiniteInput);
    }
    if pose_fits(kind, pose) {
        Ok(())
    } else {
        Err(Refusal::InvalidPose)
    }
}

fn code_kept(before: u8, code: u8) -> u8
    ensures { result ≡ cond (eqb code 0) before code }
{
    if code == 0 { before } else { code }
}

// The kind of the joint that holds each number below m, of the first joints.
fn codes_by_number(model: &Model, count: usize) -> [u8; 64]
    requires { (count ≤ 63) × (model.now.moving ≤ 63) }
    ensures { Coded (numbering_to model.now count) (kind_in model.now) count result }
{
    let mut codes = [0; 64];
    for j in 0..count {
        let entry = model.joints[j];
        let at = slot(entry.number, model.moving);
        codes[at] = code_kept(codes[at], entry.kind);
    }
    codes
}

/// Refuses positions that are not m, or else the first entry that is not good at the joint, of the first `count`, that holds its number.
pub fn check_positions(model: &Model, count: usize, positions: &[Pose]) -> Result<(), Refusal>
    requires { (count ≤ 63) × (model.now.moving ≤ 63) }
    ensures { result ≡ positions_checked (numbering_to model.now count) (kind_in model.now) positions.now (length positions.now) }
{
    if positions.len() != model.moving {
        return Err(Refusal::WrongLength);
    }
    let codes = codes_by_number(model, count);
    for (n, pose) in positions.iter().enumerate() {
        check_pose(kind_of(codes[n]), *pose)?;
    }
    Ok(())
}
