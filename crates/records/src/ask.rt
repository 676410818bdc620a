// The call of two records, asked of the library.
ghost use Rattle.std.specs.Prelude.{◌≡◌, ◌+◌, get_or};
ghost use Rattle.refusal.specs.Numbers.{number};
ghost use Rattle.outcome.specs.Outcome.{outcome, told};
ghost use Rattle.records.specs.Calls.{function_of, call_with};
ghost use Rattle.records.specs.Reading.{Readable};

use crate::calls::{base_in, floats_in, function_of, mode_of, positions_in, sums_in};
use crate::models::model_in;
use crate::shape::CallShape;
use outcome::gravity::gravity_lent;
use outcome::inverse::inverse_dynamics_lent;
use outcome::scratch::{DynamicsScratch, GravityScratch};
use outcome::{Function, JointStates};
use refusal::Refusal;
use robot::velocity::velocity_product_forces;

fn ask_inverse(s: &[u8], call: CallShape, output: &mut [f64]) -> Result<(), Refusal>
    requires { Readable s.now call.place call.moving call.loads }
    ensures { told (number result) output.new ≡ outcome (call_with s.now Function.InverseDynamics call.place call.moving call.loads) output.old }
{
    let model = model_in(s);
    let base = base_in(s, call.place + 8);
    let positions = positions_in(s, call.place, call.moving);
    let speeds = floats_in(s, call.place + 164 + 17 * call.moving, call.moving);
    let accelerations = floats_in(s, call.place + 164 + 25 * call.moving, call.moving);
    let joints = JointStates {
        positions: &positions[..call.moving],
        speeds: &speeds[..call.moving],
        accelerations: &accelerations[..call.moving],
    };
    let mut scratch = DynamicsScratch::new();
    let loaded = sums_in(s, call, model.count, &mut scratch.sums);
    let mode = mode_of(s[call.place + 7]);
    inverse_dynamics_lent(mode, &model, &base, joints, loaded, &mut scratch, output)
}

fn ask_gravity(s: &[u8], call: CallShape, output: &mut [f64]) -> Result<(), Refusal>
    requires { Readable s.now call.place call.moving call.loads }
    ensures { told (number result) output.new ≡ outcome (call_with s.now Function.Gravity call.place call.moving call.loads) output.old }
{
    let model = model_in(s);
    let base = base_in(s, call.place + 8);
    let positions = positions_in(s, call.place, call.moving);
    let mut scratch = GravityScratch::new();
    let loaded = sums_in(s, call, model.count, &mut scratch.sums);
    let mode = mode_of(s[call.place + 7]);
    gravity_lent(
        mode,
        &model,
        &base,
        &positions[..call.moving],
        loaded,
        &mut scratch,
        output,
    )
}

fn ask_velocity(s: &[u8], call: CallShape, output: &mut [f64]) -> Result<(), Refusal>
    requires { Readable s.now call.place call.moving call.loads }
    ensures { told (number result) output.new ≡ outcome (call_with s.now Function.VelocityProduct call.place call.moving call.loads) output.old }
{
    let model = model_in(s);
    let base = base_in(s, call.place + 8);
    let positions = positions_in(s, call.place, call.moving);
    let speeds = floats_in(s, call.place + 164 + 17 * call.moving, call.moving);
    let mode = mode_of(s[call.place + 7]);
    velocity_product_forces(
        mode,
        &model,
        &base,
        &positions[..call.moving],
        &speeds[..call.moving],
        output,
    )
}

// By its function.
pub(crate) fn ask(s: &[u8], call: CallShape, output: &mut [f64]) -> Result<(), Refusal>
    requires { Readable s.now call.place call.moving call.loads }
    ensures { told (number result) output.new ≡ outcome (call_with s.now (function_of (get_or s.now (call.place + 6) 0)) call.place call.moving call.loads) output.old }
{
    match function_of(s[call.place + 6]) {
        Function::InverseDynamics => ask_inverse(s, call, output),
        Function::Gravity => ask_gravity(s, call, output),
        Function::VelocityProduct => ask_velocity(s, call, output),
    }
}
