// The figures of a swept tree in either mode, over a good model.
ghost use Rattle.std.specs.Prelude.{List, ◌≡◌, [], length};
ghost use Rattle.spatial.specs.declared.Frame.{Frame as FrameRecord};
ghost use Rattle.model.specs.Good.{GoodModel};
ghost use Rattle.model.specs.Tables.{view_of};
ghost use Rattle.model.specs.declared.Joint.{Joint as JointRecord};
ghost use Rattle.model.specs.declared.Pose.{Pose as PoseRecord};
ghost use Rattle.dynamics.specs.Runs.{run_of};
ghost use Rattle.sweeps.specs.Swept.{SweptBy, kernel_by};
ghost use Rattle.outcome.specs.Refusal.{output_length};
ghost use Rattle.outcome.specs.Solved.{solved_list};

use crate::scratch::Scratch;
use model::{BaseState, Model, RootMode};
use sweeps::floating::floating;
use sweeps::inward::inward;
use sweeps::kernel::Kernel;

pub(crate) fn solve<K: Kernel>(
    kernel: &K,
    mode: RootMode,
    model: &Model,
    base: &BaseState,
    scratch: &mut Scratch<K::Value>,
    output: &mut [f64],
)
    requires good { GoodModel (view_of model.now) }
    requires places { length output.old ≡ output_length mode model.now.moving }
    ensures { (step : JointRecord → FrameRecord → K.Value → K.Value) (positions : List PoseRecord) (root : K.Value)
        → SweptBy K.none step model.now positions root scratch.old.frames scratch.old.values
        → (let run = run_of model.now positions [] [] scratch.old.sums in output.new ≡ solved_list mode base.now.frame.rotation model.now run (kernel_by step K.own run root)) }
{
    match mode {
        RootMode::Fixed => {
            inward(
                kernel,
                model,
                &scratch.frames,
                &scratch.values,
                &mut scratch.sums,
                output,
            );
        }
        RootMode::Floating => {
            floating(
                kernel,
                model,
                base.frame.rotation,
                &scratch.frames,
                &scratch.values,
                &mut scratch.sums,
                output,
            );
        }
    }
}
