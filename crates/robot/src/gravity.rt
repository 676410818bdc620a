// Gravity, fixed and floating.
ghost use Rattle.std.specs.Prelude.{[], ◌≡◌, length};
ghost use Rattle.refusal.specs.Numbers.{number};
ghost use Rattle.loads.specs.Sums.{flat_sums, prepared_sums};
ghost use Rattle.outcome.specs.Call.{call_of};
ghost use Rattle.outcome.specs.Outcome.{outcome, told};

use loads::sums::{prepare_indexed_loads, sum_loads};
use loads::{Load, LoadTable};
use model::{BaseState, Model, Pose, RootMode};
use outcome::Function;
use outcome::gravity::{gravity_core_lent, gravity_lent};
use outcome::scratch::GravityScratch;
use refusal::Refusal;
use spatial::Wrench;

/// The joints' forces (N m or N) that bear the weights and the loads, by number, after the root's wrench in floating mode; or a refusal,
/// with the output as found (but for refusal 8, which leaves the figures).
pub fn gravity(
    mode: RootMode,
    model: &Model,
    base: &BaseState,
    positions: &[Pose],
    loads: &[Load],
    output: &mut [f64],
) -> Result<(), Refusal>
    ensures { told (number result) output.new ≡ outcome (call_of Function.Gravity mode model.now base.now positions.now (length positions.now) [] [] (prepared_sums model.now.id model.now.count loads.now)) output.old }
{
    let mut scratch = GravityScratch::new();
    let loaded = sum_loads(model.id, model.count, loads, &mut scratch.sums);
    gravity_lent(mode, model, base, positions, loaded, &mut scratch, output)
}

/// The same over a table of loads in three parts.
pub fn gravity_flat(
    mode: RootMode,
    model: &Model,
    base: &BaseState,
    positions: &[Pose],
    loads: LoadTable,
    output: &mut [f64],
) -> Result<(), Refusal>
    ensures { told (number result) output.new ≡ outcome (call_of Function.Gravity mode model.now base.now positions.now (length positions.now) [] [] (flat_sums model.now.id model.now.count loads.entry.ids.now loads.entry.links.now loads.entry.numbers.now)) output.old }
{
    let mut scratch = GravityScratch::new();
    let loaded = prepare_indexed_loads(model.id, model.count, loads, &mut scratch.sums);
    gravity_lent(mode, model, base, positions, loaded, &mut scratch, output)
}

/// The same over load sums and the number of their refusal, 0 for none: the number is answered where no check before it refuses,
/// whatever it is.
pub fn gravity_core(
    mode: RootMode,
    model: &Model,
    base: &BaseState,
    positions: &[Pose],
    refused: u8,
    sums: [Wrench; 64],
    output: &mut [f64],
) -> u8
    ensures { told result output.new ≡ outcome (call_of Function.Gravity mode model.now base.now positions.now (length positions.now) [] [] (record { number = refused; sums = sums })) output.old }
{
    let mut scratch = GravityScratch::new();
    scratch.sums = sums;
    gravity_core_lent(mode, model, base, positions, refused, &mut scratch, output)
}
