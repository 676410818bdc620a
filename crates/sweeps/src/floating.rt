// Floating output: the inward sweep gets the part after the first six places, which take the root's wrench in world axes.
ghost use Rattle.std.specs.Prelude.{List, [], ◌≡◌, ◌-◌, ◌≤◌, length};
ghost use Rattle.spatial.specs.declared.Frame.{Frame as FrameRecord};
ghost use Rattle.model.specs.declared.Joint.{Joint as JointRecord};
ghost use Rattle.model.specs.declared.Pose.{Pose as PoseRecord};
ghost use Rattle.dynamics.specs.Output.{Floating};
ghost use Rattle.dynamics.specs.Run.{Fit};
ghost use Rattle.dynamics.specs.Runs.{run_of};
ghost use Rattle.sweeps.specs.Swept.{SweptBy, kernel_by};

use crate::inward::inward;
use crate::kernel::Kernel;
use dynamics::figures::put_root;
use model::Model;
use spatial::{Frame, Quaternion, Wrench};

/// The figures of a swept tree whose root floats, after the wrench at its root.
pub fn floating<K: Kernel>(
    kernel: &K,
    model: &Model,
    base: Quaternion,
    frames: &[Frame; 63],
    values: &[K::Value; 64],
    sums: &mut [Wrench; 64],
    output: &mut [f64],
)
    requires room { 6 ≤ length output.old }
    requires fit { Fit (run_of model.now [] [] [] []) (length output.old - 6) }
    ensures { (step : JointRecord → FrameRecord → K.Value → K.Value) (positions : List PoseRecord) (root : K.Value)
        → SweptBy K.none step model.now positions root frames.now values.now
        → (let run = run_of model.now positions [] [] sums.old in Floating run (kernel_by step K.own run root) base output.new) }
{
    let wrench = inward(kernel, model, frames, values, sums, &mut output[6..]);
    put_root(base, wrench, output);
}
