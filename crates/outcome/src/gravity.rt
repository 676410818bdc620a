// Gravity, fixed and floating.
ghost use Rattle.std.specs.Prelude.{[], ◌≡◌, length};
ghost use Rattle.refusal.specs.Numbers.{number};
ghost use Rattle.loads.specs.Sums.{summed};
ghost use Rattle.outcome.specs.Call.{call_of};
ghost use Rattle.outcome.specs.Outcome.{outcome, told};

use crate::Function;
use crate::checks::check_gravity;
use crate::roots::check_figures;
use crate::scratch::GravityScratch;
use crate::solve::solve;
use dynamics::weights::turned;
use model::{BaseState, Model, Pose, RootMode};
use refusal::{Refusal, number};
use spatial::constants::standard_gravity;
use sweeps::kernel::Gravity;
use sweeps::outward::outward;

/// The joints' forces (N m or N) that bear the weights and the loads, by number, after the root's wrench in floating mode; or a refusal,
/// with the output as found (but for refusal 8, which leaves the figures). The load sums stand in the tables that are lent, with what their adding up came to, and are used up.
pub fn gravity_lent(
    mode: RootMode,
    model: &Model,
    base: &BaseState,
    positions: &[Pose],
    loaded: Result<(), Refusal>,
    scratch: &mut GravityScratch,
    output: &mut [f64],
) -> Result<(), Refusal>
    ensures { told (number result) output.new ≡ outcome (call_of Function.Gravity mode model.now base.now positions.now (length positions.now) [] [] (summed loaded scratch.old.sums)) output.old }
{
    let root = turned(base.frame.rotation, standard_gravity());
    let passed = outward(
        &Gravity,
        model,
        root,
        positions,
        &mut scratch.frames,
        &mut scratch.values,
    );
    check_gravity(passed, mode, model, base, positions, loaded, output.len())?;
    solve(&Gravity, mode, model, base, scratch, output);
    check_figures(output)
}

/// The same where the refusal of the load sums is told by a number, 0 for none: the number is answered where no check before it refuses,
/// whatever it is.
pub fn gravity_core_lent(
    mode: RootMode,
    model: &Model,
    base: &BaseState,
    positions: &[Pose],
    refused: u8,
    scratch: &mut GravityScratch,
    output: &mut [f64],
) -> u8
    ensures { told result output.new ≡ outcome (call_of Function.Gravity mode model.now base.now positions.now (length positions.now) [] [] (record { number = refused; sums = scratch.old.sums })) output.old }
{
    if refused != 0 {
        let answer = check_gravity(false, mode, model, base, positions, Ok(()), output.len());
        return match answer {
            Ok(()) => refused,
            Err(refusal) => refusal.number(),
        };
    }
    number(gravity_lent(mode, model, base, positions, Ok(()), scratch, output))
}
