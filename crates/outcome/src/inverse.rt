// Inverse dynamics, fixed and floating.
ghost use Rattle.std.specs.Prelude.{◌≡◌, length};
ghost use Rattle.refusal.specs.Numbers.{number};
ghost use Rattle.loads.specs.Sums.{summed};
ghost use Rattle.outcome.specs.Call.{call_of};
ghost use Rattle.outcome.specs.Outcome.{outcome, told};

use crate::checks::check_inverse;
use crate::roots::{check_figures, inverse_root};
use crate::scratch::DynamicsScratch;
use crate::solve::solve;
use crate::{Function, JointStates};
use model::{BaseState, Model, RootMode};
use refusal::{Refusal, number};
use sweeps::kernel::InverseDynamics;
use sweeps::outward::outward;

/// The joints' forces (N m or N), by number, after the root's wrench in floating mode; or a refusal, with the output as found (but for
/// refusal 8, which leaves the figures). The load sums stand in the tables that are lent, with what their adding up came to, and are used up.
pub fn inverse_dynamics_lent(
    mode: RootMode,
    model: &Model,
    base: &BaseState,
    joints: JointStates,
    loaded: Result<(), Refusal>,
    scratch: &mut DynamicsScratch,
    output: &mut [f64],
) -> Result<(), Refusal>
    ensures { told (number result) output.new ≡ outcome (call_of Function.InverseDynamics mode model.now base.now joints.entry.positions.now (length joints.entry.positions.now) joints.entry.speeds.now joints.entry.accelerations.now (summed loaded scratch.old.sums)) output.old }
{
    let kernel = InverseDynamics {
        speeds: joints.speeds,
        accelerations: joints.accelerations,
    };
    let root = inverse_root(mode, base);
    let passed = outward(
        &kernel,
        model,
        root,
        joints.positions,
        &mut scratch.frames,
        &mut scratch.values,
    );
    check_inverse(passed, mode, model, base, joints, loaded, output.len())?;
    solve(&kernel, mode, model, base, scratch, output);
    check_figures(output)
}

/// The same where the refusal of the load sums is told by a number, 0 for none: the number is answered where no check before it refuses,
/// whatever it is.
pub fn inverse_dynamics_core_lent(
    mode: RootMode,
    model: &Model,
    base: &BaseState,
    joints: JointStates,
    refused: u8,
    scratch: &mut DynamicsScratch,
    output: &mut [f64],
) -> u8
    ensures { told result output.new ≡ outcome (call_of Function.InverseDynamics mode model.now base.now joints.entry.positions.now (length joints.entry.positions.now) joints.entry.speeds.now joints.entry.accelerations.now (record { number = refused; sums = scratch.old.sums })) output.old }
{
    if refused != 0 {
        let answer = check_inverse(false, mode, model, base, joints, Ok(()), output.len());
        return match answer {
            Ok(()) => refused,
            Err(refusal) => refusal.number(),
        };
    }
    number(inverse_dynamics_lent(mode, model, base, joints, Ok(()), scratch, output))
}
