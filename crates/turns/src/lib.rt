// A call made many times over, for a driver that measures it.
#![tactic(auto)]

ghost use Rattle.records.specs.Layout.{LaidBytes};
ghost use Rattle.records.specs.Reading.{Readable};

pub mod flat;
pub mod repeat;

use crate::flat::{load_links, load_numbers};
use crate::repeat::{repeat_check, repeat_gravity, repeat_inverse, repeat_velocity};
use loads::LoadTable;
use outcome::{Function, JointStates};
use records::calls::{base_in, floats_in, function_of, mode_of, positions_in};
use records::laid::check_layout;
use records::models::model_in;
use records::shape::CallShape;
use refusal::{Refusal, number};

fn turn_inverse(s: &[u8], call: CallShape, turns: usize, output: &mut [f64]) -> Result<(), Refusal>
    requires { Readable s.now call.place call.moving call.loads }
{
    let model = model_in(s);
    let base = base_in(s, call.place + 8);
    let positions = positions_in(s, call.place, call.moving);
    let speeds = floats_in(s, call.place + 164 + 17 * call.moving, call.moving);
    let accelerations = floats_in(s, call.place + 164 + 25 * call.moving, call.moving);
    let joints = JointStates {
        positions: &positions[..call.moving],
        speeds: &speeds[..call.moving],
        accelerations: &accelerations[..call.moving],
    };
    let links = load_links(s, call);
    let numbers = load_numbers(s, call);
    let loads = LoadTable {
        ids: &[0; 256][..call.loads],
        links: &links[..call.loads],
        numbers: &numbers[..6 * call.loads],
    };
    let mode = mode_of(s[call.place + 7]);
    repeat_inverse(turns, mode, &model, &base, joints, loads, output)
}

fn turn_gravity(s: &[u8], call: CallShape, turns: usize, output: &mut [f64]) -> Result<(), Refusal>
    requires { Readable s.now call.place call.moving call.loads }
{
    let model = model_in(s);
    let base = base_in(s, call.place + 8);
    let positions = positions_in(s, call.place, call.moving);
    let links = load_links(s, call);
    let numbers = load_numbers(s, call);
    let loads = LoadTable {
        ids: &[0; 256][..call.loads],
        links: &links[..call.loads],
        numbers: &numbers[..6 * call.loads],
    };
    let mode = mode_of(s[call.place + 7]);
    repeat_gravity(
        turns,
        mode,
        &model,
        &base,
        &positions[..call.moving],
        loads,
        output,
    )
}

fn turn_velocity(s: &[u8], call: CallShape, turns: usize, output: &mut [f64]) -> Result<(), Refusal>
    requires { Readable s.now call.place call.moving call.loads }
{
    let model = model_in(s);
    let base = base_in(s, call.place + 8);
    let positions = positions_in(s, call.place, call.moving);
    let speeds = floats_in(s, call.place + 164 + 17 * call.moving, call.moving);
    let mode = mode_of(s[call.place + 7]);
    repeat_velocity(
        turns,
        mode,
        &model,
        &base,
        &positions[..call.moving],
        &speeds[..call.moving],
        output,
    )
}

fn turn_call(s: &[u8], call: CallShape, turns: usize, output: &mut [f64]) -> Result<(), Refusal>
    requires { Readable s.now call.place call.moving call.loads }
{
    match function_of(s[call.place + 6]) {
        Function::InverseDynamics => turn_inverse(s, call, turns, output),
        Function::Gravity => turn_gravity(s, call, turns, output),
        Function::VelocityProduct => turn_velocity(s, call, turns, output),
    }
}

fn turn_laid(s: &[u8], turns: usize, output: &mut [f64]) -> Result<(), Refusal>
    requires { LaidBytes s.now }
{
    turn_call(s, CallShape::of(s), turns, output)
}

fn check_laid(s: &[u8], turns: usize) -> Result<(), Refusal>
    requires { LaidBytes s.now }
{
    let model = model_in(s);
    repeat_check(turns, &model)
}

// The call of two records so many times over, its figures in the output; the last turn's number.
#[unsafe(no_mangle)]
pub extern "C" fn fatonjuki_turns(s: &[u8], turns: usize, output: &mut [f64]) -> u8 {
    if let Err(refusal) = check_layout(s) {
        return refusal.number();
    }
    number(turn_laid(s, turns, output))
}

// The check of their model alone, so many times over.
#[unsafe(no_mangle)]
pub extern "C" fn fatonjuki_checks(s: &[u8], turns: usize) -> u8 {
    if let Err(refusal) = check_layout(s) {
        return refusal.number();
    }
    number(check_laid(s, turns))
}
