// Any bytes answered by bytes.
ghost use Rattle.std.specs.Prelude.{◌≡◌, ◌+◌, ◌≤◌, length, get_or, replicate};
ghost use Rattle.refusal.specs.Numbers.{number};
ghost use Rattle.spatial.specs.Constants.{plus_zero};
ghost use Rattle.outcome.specs.Refusal.{output_length};
ghost use Rattle.outcome.specs.Outcome.{outcome, told};
ghost use Rattle.records.specs.Layout.{LaidBytes};
ghost use Rattle.records.specs.Places.{moving};
ghost use Rattle.records.specs.Reading.{Readable};
ghost use Rattle.records.specs.Answers.{answer_bytes};
ghost use Rattle.records.specs.Calls.{function_of, call_with, call_in};
ghost use Rattle.records.specs.Reply.{answer_of, answer_from, answer_to, reply, sent};

use crate::answers::{put_answer, put_refusal};
use crate::ask::ask;
use crate::calls::mode_of;
use crate::laid::check_layout;
use crate::shape::CallShape;
use model::RootMode;
use refusal::Refusal;

fn no_figures() -> [f64; 69]
    ensures { result ≡ replicate 69 plus_zero }
{
    [0.0; 69]
}

// m figures in fixed mode, 6 more in floating mode.
fn figure_count(mode: RootMode, m: usize) -> usize
    requires { m ≤ 63 }
    ensures { (result ≡ output_length mode m) × (result ≤ 69) }
{
    match mode {
        RootMode::Fixed => m,
        RootMode::Floating => 6 + m,
    }
}

// A refused answer has no figures.
fn put_outcome(answer: Result<(), Refusal>, figures: &[f64], out: &mut [u8]) -> usize
    requires { length figures.now ≤ 69 }
    ensures { record { count = result; out = out.new } ≡ sent (answer_bytes (answer_of (number answer) (told (number answer) figures.now))) out.old }
{
    match answer {
        Ok(()) => put_answer(0, figures, out),
        Err(refusal) => put_refusal(refusal.number(), out),
    }
}

// The answer to a call, its figures by way of a lent table.
fn answer_by(input: &[u8], call: CallShape, figures: &mut [f64], out: &mut [u8]) -> usize
    requires { Readable input.now call.place call.moving call.loads × (length figures.old ≤ 69) }
    ensures { record { count = result; out = out.new } ≡ sent (answer_bytes (answer_from (outcome (call_with input.now (function_of (get_or input.now (call.place + 6) 0)) call.place call.moving call.loads) figures.old))) out.old }
{
    let answer = ask(input, call, figures);
    put_outcome(answer, figures, out)
}

fn answer_call(input: &[u8], call: CallShape, out: &mut [u8]) -> usize
    requires { Readable input.now call.place call.moving call.loads × (call.moving ≡ moving input.now) }
    ensures { record { count = result; out = out.new } ≡ sent (answer_bytes (answer_to (call_with input.now (function_of (get_or input.now (call.place + 6) 0)) call.place call.moving call.loads))) out.old }
{
    let mode = mode_of(input[call.place + 7]);
    let count = figure_count(mode, call.moving);
    let mut figures = no_figures();
    answer_by(input, call, &mut figures[..count], out)
}

fn answer_laid(input: &[u8], out: &mut [u8]) -> usize
    requires { LaidBytes input.now }
    ensures { record { count = result; out = out.new } ≡ sent (answer_bytes (answer_to (call_in input.now))) out.old }
{
    answer_call(input, CallShape::of(input), out)
}

/// Answers any bytes: how many bytes were written; the rest of the table is as it was found.
pub fn answer(input: &[u8], out: &mut [u8]) -> usize
    ensures { record { count = result; out = out.new } ≡ sent (reply input.now) out.old }
{
    if let Err(refusal) = check_layout(input) {
        return put_refusal(refusal.number(), out);
    }
    answer_laid(input, out)
}
