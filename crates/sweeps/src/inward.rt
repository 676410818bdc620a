// The inward sweep.
ghost use Rattle.std.specs.Prelude.{List, [], ◌≡◌, length};
ghost use Rattle.spatial.specs.declared.Frame.{Frame as FrameRecord};
ghost use Rattle.model.specs.declared.Joint.{Joint as JointRecord};
ghost use Rattle.model.specs.declared.Pose.{Pose as PoseRecord};
ghost use Rattle.dynamics.specs.Output.{Done};
ghost use Rattle.dynamics.specs.Run.{Fit};
ghost use Rattle.dynamics.specs.Runs.{run_of};
ghost use Rattle.sweeps.specs.Swept.{SweptBy, kernel_by};

use crate::kernel::Kernel;
use dynamics::figures::put;
use model::Model;
use spatial::wrenches::{add_wrench, wrench_to_parent};
use spatial::{Frame, Wrench};

/// The figures of a swept tree, and the wrench at its root. The load sums are added up in their own table.
pub fn inward<K: Kernel>(
    kernel: &K,
    model: &Model,
    frames: &[Frame; 63],
    values: &[K::Value; 64],
    sums: &mut [Wrench; 64],
    output: &mut [f64],
) -> Wrench
    requires fit { Fit (run_of model.now [] [] [] []) (length output.old) }
    ensures { (step : JointRecord → FrameRecord → K.Value → K.Value) (positions : List PoseRecord) (root : K.Value)
        → SweptBy K.none step model.now positions root frames.now values.now
        → (let run = run_of model.now positions [] [] sums.old in Done run (kernel_by step K.own run root) result output.new) }
{
    sums[0] = add_wrench(sums[0], kernel.bear(model.links[0], values[0]));
    for j in (0..model.count - 1).rev() {
        let joint = model.joints[j].joint();
        let total = add_wrench(sums[j + 1], kernel.bear(model.links[j + 1], values[j + 1]));
        put(joint, total, output);
        let sum = add_wrench(sums[joint.parent], wrench_to_parent(frames[j], total));
        sums[joint.parent] = sum;
    }
    sums[0]
}
