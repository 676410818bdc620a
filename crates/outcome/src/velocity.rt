// Velocity product, fixed and floating.
ghost use Rattle.std.specs.Prelude.{[], ◌≡◌, length};
ghost use Rattle.refusal.specs.Numbers.{number};
ghost use Rattle.loads.specs.Sums.{start_sums};
ghost use Rattle.outcome.specs.Call.{call_of};
ghost use Rattle.outcome.specs.Outcome.{outcome, told};

use crate::Function;
use crate::checks::check_velocity;
use crate::roots::{check_figures, velocity_root};
use crate::scratch::DynamicsScratch;
use crate::solve::solve;
use model::{BaseState, Model, Pose, RootMode};
use refusal::Refusal;
use spatial::constants::zero_wrench;
use sweeps::kernel::InverseDynamics;
use sweeps::outward::outward;

/// The joints' forces (N m or N) that their speeds alone ask for, by number, after the root's wrench in floating mode; or a refusal, with
/// the output as found (but for refusal 8, which leaves the figures). No load is taken.
pub fn velocity_product_forces_lent(
    mode: RootMode,
    model: &Model,
    base: &BaseState,
    positions: &[Pose],
    speeds: &[f64],
    scratch: &mut DynamicsScratch,
    output: &mut [f64],
) -> Result<(), Refusal>
    ensures { told (number result) output.new ≡ outcome (call_of Function.VelocityProduct mode model.now base.now positions.now (length positions.now) speeds.now [] start_sums) output.old }
{
    let kernel = InverseDynamics {
        speeds,
        accelerations: &[0.0; 63],
    };
    let root = velocity_root(mode, base);
    let passed = outward(
        &kernel,
        model,
        root,
        positions,
        &mut scratch.frames,
        &mut scratch.values,
    );
    check_velocity(passed, mode, model, base, positions, speeds, output.len())?;
    scratch.sums = [zero_wrench(); 64];
    solve(&kernel, mode, model, base, scratch, output);
    check_figures(output)
}
