// Inverse dynamics, fixed and floating.
ghost use Rattle.std.specs.Prelude.{◌≡◌, length};
ghost use Rattle.refusal.specs.Numbers.{number};
ghost use Rattle.loads.specs.Sums.{flat_sums, prepared_sums};
ghost use Rattle.outcome.specs.Call.{call_of};
ghost use Rattle.outcome.specs.Outcome.{outcome, told};

use loads::sums::{prepare_indexed_loads, sum_loads};
use loads::{Load, LoadTable};
use model::{BaseState, Model, RootMode};
use outcome::inverse::{inverse_dynamics_core_lent, inverse_dynamics_lent};
use outcome::scratch::DynamicsScratch;
use outcome::{Function, JointStates};
use refusal::Refusal;
use spatial::Wrench;

/// The joints' forces (N m or N), by number, after the root's wrench in floating mode; or a refusal, with the output as found (but for
/// refusal 8, which leaves the figures).
pub fn inverse_dynamics(
    mode: RootMode,
    model: &Model,
    base: &BaseState,
    joints: JointStates,
    loads: &[Load],
    output: &mut [f64],
) -> Result<(), Refusal>
    ensures { told (number result) output.new ≡ outcome (call_of Function.InverseDynamics mode model.now base.now joints.entry.positions.now (length joints.entry.positions.now) joints.entry.speeds.now joints.entry.accelerations.now (prepared_sums model.now.id model.now.count loads.now)) output.old }
{
    let mut scratch = DynamicsScratch::new();
    let loaded = sum_loads(model.id, model.count, loads, &mut scratch.sums);
    inverse_dynamics_lent(mode, model, base, joints, loaded, &mut scratch, output)
}

/// The same over a table of loads in three parts.
pub fn inverse_dynamics_flat(
    mode: RootMode,
    model: &Model,
    base: &BaseState,
    joints: JointStates,
    loads: LoadTable,
    output: &mut [f64],
) -> Result<(), Refusal>
    ensures { told (number result) output.new ≡ outcome (call_of Function.InverseDynamics mode model.now base.now joints.entry.positions.now (length joints.entry.positions.now) joints.entry.speeds.now joints.entry.accelerations.now (flat_sums model.now.id model.now.count loads.entry.ids.now loads.entry.links.now loads.entry.numbers.now)) output.old }
{
    let mut scratch = DynamicsScratch::new();
    let loaded = prepare_indexed_loads(model.id, model.count, loads, &mut scratch.sums);
    inverse_dynamics_lent(mode, model, base, joints, loaded, &mut scratch, output)
}

/// The same over load sums and the number of their refusal, 0 for none: the number is answered where no check before it refuses,
/// whatever it is.
pub fn inverse_dynamics_core(
    mode: RootMode,
    model: &Model,
    base: &BaseState,
    joints: JointStates,
    refused: u8,
    sums: [Wrench; 64],
    output: &mut [f64],
) -> u8
    ensures { told result output.new ≡ outcome (call_of Function.InverseDynamics mode model.now base.now joints.entry.positions.now (length joints.entry.positions.now) joints.entry.speeds.now joints.entry.accelerations.now (record { number = refused; sums = sums })) output.old }
{
    let mut scratch = DynamicsScratch::new();
    scratch.sums = sums;
    inverse_dynamics_core_lent(mode, model, base, joints, refused, &mut scratch, output)
}
