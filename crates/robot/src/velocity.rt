// Velocity product, fixed and floating.
ghost use Rattle.std.specs.Prelude.{[], ◌≡◌, length};
ghost use Rattle.refusal.specs.Numbers.{number};
ghost use Rattle.loads.specs.Sums.{start_sums};
ghost use Rattle.outcome.specs.Call.{call_of};
ghost use Rattle.outcome.specs.Outcome.{outcome, told};

use model::{BaseState, Model, Pose, RootMode};
use outcome::Function;
use outcome::scratch::DynamicsScratch;
use outcome::velocity::velocity_product_forces_lent;
use refusal::Refusal;

/// The joints' forces (N m or N) that their speeds alone ask for, by number, after the root's wrench in floating mode; or a refusal, with
/// the output as found (but for refusal 8, which leaves the figures).
pub fn velocity_product_forces(
    mode: RootMode,
    model: &Model,
    base: &BaseState,
    positions: &[Pose],
    speeds: &[f64],
    output: &mut [f64],
) -> Result<(), Refusal>
    ensures { told (number result) output.new ≡ outcome (call_of Function.VelocityProduct mode model.now base.now positions.now (length positions.now) speeds.now [] start_sums) output.old }
{
    let mut scratch = DynamicsScratch::new();
    velocity_product_forces_lent(mode, model, base, positions, speeds, &mut scratch, output)
}
