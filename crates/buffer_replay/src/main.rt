// Replays a script of buffer operations and counts the answers that agree with the oracle's.
#![tactic(auto)]

ghost use Rattle.std.specs.Prelude.{◌<◌};

use buffer::LoadBuffer;
use frames::fields::{byte_at, u16_at, u64_at, wrench_at};
use frames::{STDOUT_FILENO, read_frame};
use loads::Load;
use refusal::{Refusal, number};
use spatial::constants::zero_wrench;
use spatial::{Vector3, Wrench};

#[derive(Drop)]
struct Tally {
    run: u64,
    same: u64,
}

// Whether a finite double has the bits that a frame says.
fn same_double(x: f64, s: &[u8], at: usize) -> bool
    requires { at < 65500 }
{
    if x != x {
        return false;
    }
    f64::to_bits(x) == u64_at(s, at)
}

fn same_vector(v: Vector3, s: &[u8], at: usize) -> bool
    requires { at < 65400 }
{
    same_double(v.x, s, at) & same_double(v.y, s, at + 8) & same_double(v.z, s, at + 16)
}

fn same_wrench(w: Wrench, s: &[u8], at: usize) -> bool
    requires { at < 65300 }
{
    same_vector(w.torque, s, at) & same_vector(w.force, s, at + 24)
}

// A load as it stands among the stored ones: link and wrench.
fn same_stored(load: Load, s: &[u8], at: usize) -> bool
    requires { at < 65200 }
{
    (load.link == u16_at(s, at) as usize) & same_wrench(load.wrench, s, at + 2)
}

// A load as it stands in a lent table: id, link and wrench.
fn same_listed(load: Load, s: &[u8], at: usize) -> bool
    requires { at < 65200 }
{
    (load.id == u64_at(s, at))
        & (load.link as u64 == u64_at(s, at + 8))
        & same_wrench(load.wrench, s, at + 16)
}

// A table of 64 places for a listing.
fn empty_table() -> [Load; 64] {
    let load = Load {
        id: 0,
        link: 0,
        wrench: zero_wrench(),
    };
    [load; 64]
}

// Number, count and stored loads of an answer frame.
fn same_answer(buffer: &LoadBuffer, number: u8, s: &[u8]) -> bool {
    let mut table = empty_table();
    let Ok(count) = buffer.len() else {
        return false;
    };
    if buffer.list(&mut table).is_err() {
        return false;
    }
    let mut same = (number == byte_at(s, 0)) & (count == u16_at(s, 1) as usize);
    for i in 0..64 {
        if i < count {
            same = same & same_stored(table[i], s, 3 + 50 * i);
        }
    }
    same
}

// The loads that a listing for so many places gives, after the stored ones.
fn same_table(buffer: &LoadBuffer, places: usize, s: &[u8]) -> bool {
    let Ok(listing) = buffer.listed(places) else {
        return true;
    };
    let count = listing.count;
    if count > 64 {
        return false;
    }
    let mut same = true;
    for i in 0..64 {
        if i < count {
            same = same & same_listed(listing.loads[i], s, 3 + 50 * count + 64 * i);
        }
    }
    same
}

// An operation frame's answer, and the buffer changed as it says.
fn apply(buffer: &mut LoadBuffer, s: &[u8]) -> Result<(), Refusal> {
    let id = u64_at(s, 1);
    let link = u64_at(s, 9) as usize;
    match byte_at(s, 0) {
        1 => {
            *buffer = LoadBuffer::new(id, link)?;
            Ok(())
        }
        2 => buffer.set(id, link, wrench_at(s, 17)),
        3 => buffer.add(id, link, wrench_at(s, 17)),
        4 => buffer.remove(id, link),
        5 => buffer.clear(),
        6 => buffer.listed(id as usize).map(|_| ()),
        _ => buffer.len().map(|_| ()),
    }
}

// Whether the answer to one operation frame is that of its answer frame.
fn turn(buffer: &mut LoadBuffer, operation: &[u8], answer: &[u8]) -> bool {
    let told = number(apply(buffer, operation));
    let mut same = same_answer(buffer, told, answer);
    if byte_at(operation, 0) == 6 {
        let places = u64_at(operation, 1) as usize;
        same = same & same_table(buffer, places, answer);
    }
    same
}

// The whole script, at most a million operations.
fn replay() -> Tally {
    let mut same = 0;
    let Ok(mut buffer) = LoadBuffer::new(0, 1) else {
        return Tally { run: 0, same };
    };
    let mut operation = io::large_buffer();
    let mut answer = io::large_buffer();
    for run in 0..1000000u64 {
        let Some(k) = read_frame(&mut operation) else {
            return Tally { run, same };
        };
        let n = read_frame(&mut answer).unwrap_or(0);
        let agrees = turn(&mut buffer, &operation[..k], &answer[..n]);
        same += u64::from(agrees);
    }
    Tally { run: 1000000, same }
}

fn main() {
    let t = replay();
    io::write_all(STDOUT_FILENO, b"operations ");
    io::print_decimal(STDOUT_FILENO, t.run);
    io::write_all(STDOUT_FILENO, b", answers that agree ");
    io::print_decimal(STDOUT_FILENO, t.same);
    io::write_all(STDOUT_FILENO, b"\n");
}
