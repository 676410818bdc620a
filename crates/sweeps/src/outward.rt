// The outward sweep.
ghost use Rattle.std.specs.Prelude.{true, [], ◌≡◌, ◌≤◌, length};
ghost use Rattle.model.specs.Good.{counts_fit};
ghost use Rattle.model.specs.Walk.{Passed};
ghost use Rattle.dynamics.specs.Run.{Fit};
ghost use Rattle.dynamics.specs.Runs.{run_of};
ghost use Rattle.sweeps.specs.Swept.{SweptBy};

use crate::kernel::Kernel;
use dynamics::frames::frame_in;
use fit::finite::finite_vector;
use model::tables::counts_fit;
use model::walk::{joint_passes, next_after, stays, times_joint, times_link};
use model::{Model, Pose};
use spatial::Frame;
use spatial::constants::zero_vector;

/// Each joint's frame and each link's value, from the root's, with a quick test of the model and the positions: true only where both are
/// good. The tables are swept wherever the model is a tree and the lists have its m numbers.
#[tactic(auto, using(model::proofs::GoodLaws::counts, crate::proofs::OutwardLaws::stays_parent, crate::proofs::OutwardLaws::stays_number, crate::proofs::OutwardLaws::moves_coded))]
pub fn outward<K: Kernel>(
    kernel: &K,
    model: &Model,
    root: K::Value,
    positions: &[Pose],
    frames: &mut [Frame; 63],
    values: &mut [K::Value; 64],
) -> bool
    ensures passed { result ≡ true → Passed model.now positions.now }
    ensures swept { counts_fit model.now.count model.now.moving ≡ true → Fit (run_of model.now [] [] [] []) model.now.moving → model.now.moving ≤ length positions.now → model.now.moving ≤ K.room kernel.now
        → SweptBy K.none (K.step kernel.now) model.now positions.now root frames.new values.new }
{
    let moving = model.moving;
    if !counts_fit(model.count, moving) || positions.len() < moving || !kernel.has_room(moving) {
        return false;
    }
    values[0] = root;
    let first = model.links[0];
    let mut good = 0.0 <= first.mass;
    let mut zero = times_link(zero_vector(), first);
    let mut next = 0;
    for j in 0..model.count - 1 {
        let entry = model.joints[j];
        let joint = entry.joint();
        if !stays(j, entry.kind, joint, moving) {
            return false;
        }
        let link = model.links[j + 1];
        good = good & joint_passes(entry.kind, joint, link, next, positions);
        next = next_after(entry.kind, next);
        zero = times_joint(times_link(zero, link), joint);
        let frame = frame_in(joint, positions);
        frames[j] = frame;
        values[j + 1] = kernel.carry(joint, frame, values[joint.parent]);
    }
    good & finite_vector(zero) & (next == moving)
}
