// Replays calls of the three functions and counts the answers that agree with the oracle's.
#![tactic(auto)]

ghost use Rattle.std.specs.Prelude.{◌<◌, ◌≤◌, length};

use build::blank_model;
use frames::fields::{byte_at, f64_at, u64_at, vector_at};
use frames::{STDOUT_FILENO, read_frame};
use loads::LoadTable;
use model::{BaseState, JointEntry, Link, Model, Pose, RootMode};
use outcome::{Function, JointStates};
use records::calls::{function_of, mode_of};
use refusal::{Refusal, number};
use robot::gravity::gravity_flat;
use robot::inverse::inverse_dynamics_flat;
use robot::velocity::velocity_product_forces;
use spatial::{Frame, Matrix3, Quaternion, Twist};
use wire::read::double;
use wire::write::pattern;

// A place of a frame, moved on; 0 past 65,000.
fn after(at: usize, more: usize) -> usize
    ensures { result < 65000 }
{
    if at < 65000 {
        if more < 65000 - at {
            return at + more;
        }
    }
    0
}

fn size_at(s: &[u8], at: usize) -> usize
    requires { at < 65500 }
{
    u64_at(s, at) as usize
}

fn twist_at(s: &[u8], at: usize) -> Twist
    requires { at < 65400 }
{
    Twist {
        angular: vector_at(s, at),
        linear: vector_at(s, at + 24),
    }
}

fn frame_at(s: &[u8], at: usize) -> Frame
    requires { at < 65300 }
{
    Frame {
        rotation: Quaternion {
            w: f64_at(s, at),
            i: f64_at(s, at + 8),
            j: f64_at(s, at + 16),
            k: f64_at(s, at + 24),
        },
        translation: vector_at(s, at + 32),
    }
}

fn base_at(s: &[u8], at: usize) -> BaseState
    requires { at < 65000 }
{
    BaseState {
        frame: frame_at(s, at),
        velocity: twist_at(s, at + 56),
        acceleration: twist_at(s, at + 104),
    }
}

// n floats.
fn floats_at(s: &[u8], at: usize, n: usize) -> [f64; 512]
    requires { n ≤ 512 }
{
    let mut t = [0.0; 512];
    for i in 0..n {
        t[i] = f64_at(s, after(at, 8 * i));
    }
    t
}

// Six floats a load, after its id and link.
fn wrenches_at(s: &[u8], at: usize, n: usize) -> [f64; 5400]
    requires { n ≤ 900 }
{
    let mut t = [0.0; 5400];
    for i in 0..6 * n {
        t[i] = f64_at(s, after(at, i / 6 * 64 + 16 + i % 6 * 8));
    }
    t
}

fn ids_at(s: &[u8], at: usize, n: usize) -> [u64; 900]
    requires { n ≤ 900 }
{
    let mut t = [0; 900];
    for i in 0..n {
        t[i] = u64_at(s, after(at, 64 * i));
    }
    t
}

fn load_links_at(s: &[u8], at: usize, n: usize) -> [usize; 900]
    requires { n ≤ 900 }
{
    let mut t = [0; 900];
    for i in 0..n {
        t[i] = size_at(s, after(at, 64 * i + 8));
    }
    t
}

// 13 floats a link.
fn link_at(s: &[u8], at: usize) -> Link
    requires { at < 65000 }
{
    Link {
        mass: f64_at(s, at),
        center: vector_at(s, at + 8),
        inertia: Matrix3 {
            x: vector_at(s, at + 32),
            y: vector_at(s, at + 56),
            z: vector_at(s, at + 80),
        },
    }
}

// 97 bytes a joint: kind, parent, number, ten floats.
fn entry_at(s: &[u8], at: usize) -> JointEntry
    requires { at < 65000 }
{
    JointEntry {
        kind: byte_at(s, at),
        parent: size_at(s, at + 1),
        number: size_at(s, at + 9),
        origin: frame_at(s, at + 17),
        axis: vector_at(s, at + 73),
    }
}

fn model_at(s: &[u8]) -> Model {
    let count = size_at(s, 10);
    let n = count.min(64);
    let mut model = blank_model(u64_at(s, 2), count, size_at(s, 18));
    for l in 0..n {
        model.links[l] = link_at(s, 26 + 104 * l);
    }
    let at = 26 + 104 * n;
    for j in 0..n.saturating_sub(1) {
        model.joints[j] = entry_at(s, at + 97 * j);
    }
    model
}

fn pose_at(s: &[u8], at: usize) -> Pose
    requires { at < 65000 }
{
    let first = f64_at(s, at + 1);
    if byte_at(s, at) == 1 {
        return Pose::Half(first, f64_at(s, at + 9));
    }
    Pose::Slide(first)
}

// n entries, and distances of 0 after them; one more than a good model moves.
fn positions_at(s: &[u8], at: usize, n: usize) -> [Pose; 64]
    requires { n ≤ 63 }
{
    let mut t = [Pose::Slide(0.0); 64];
    for i in 0..n {
        t[i] = pose_at(s, after(at, 17 * i));
    }
    t
}

// Whether a double has these bits; a NaN has any NaN's.
fn same_double(x: f64, bits: u64) -> bool {
    pattern(x) == pattern(double(bits))
}

// The number, the count, and the output as the answer frame says.
fn same_answer(number: u8, output: &[f64], s: &[u8]) -> bool
    requires { length output.now ≤ 512 }
{
    let mut same = (number == byte_at(s, 0)) & (output.len() as u64 == u64_at(s, 1));
    for (i, x) in output.iter().enumerate() {
        same = same & same_double(*x, u64_at(s, 9 + 8 * i));
    }
    same
}

// Where the lists of a case stand, after its positions, and how long each is.
#[derive(Drop)]
struct Lists {
    first: usize,
    fast: usize,
    second: usize,
    pushed: usize,
    third: usize,
    loads: usize,
    last: usize,
    wide: usize,
}

fn lists_at(s: &[u8], at: usize) -> Lists
    requires { at < 65000 }
{
    let fast = size_at(s, at).min(512);
    let second = after(at, 8 + 8 * fast);
    let pushed = size_at(s, second).min(512);
    let third = after(second, 8 + 8 * pushed);
    let loads = size_at(s, third).min(900);
    let last = after(third, 8 + 64 * loads);
    let wide = size_at(s, last).min(512);
    Lists {
        first: after(at, 8),
        fast,
        second: after(second, 8),
        pushed,
        third: after(third, 8),
        loads,
        last: after(last, 8),
        wide,
    }
}

// A case: what is asked, and of what.
#[derive(Clone, Copy)]
struct Case<'a> {
    function: Function,
    mode: RootMode,
    model: &'a Model,
    base: &'a BaseState,
    joints: JointStates<'a>,
    loads: LoadTable<'a>,
}

fn asked(case: Case, output: &mut [f64]) -> Result<(), Refusal> {
    let joints = case.joints;
    match case.function {
        Function::InverseDynamics => inverse_dynamics_flat(
            case.mode, case.model, case.base, joints, case.loads, output,
        ),
        Function::Gravity => gravity_flat(
            case.mode,
            case.model,
            case.base,
            joints.positions,
            case.loads,
            output,
        ),
        Function::VelocityProduct => velocity_product_forces(
            case.mode,
            case.model,
            case.base,
            joints.positions,
            joints.speeds,
            output,
        ),
    }
}

// One case frame and its answer frame: whether the answer is the oracle's. Of more positions than a good model moves, one too many is asked.
fn turn(s: &[u8], answer: &[u8]) -> bool {
    let model = model_at(s);
    let n = model.count.min(64);
    let at = 26 + 104 * n + 97 * n.saturating_sub(1);
    let base = base_at(s, at);
    let entries = size_at(s, at + 152);
    let held = entries.min(63);
    let positions = positions_at(s, after(at, 160), held);
    let lists = lists_at(s, after(at, 160 + 17 * held));
    let fast = lists.fast.min(512);
    let pushed = lists.pushed.min(512);
    let wide = lists.wide.min(512);
    let k = lists.loads.min(900);
    let case = Case {
        function: function_of(byte_at(s, 0)),
        mode: mode_of(byte_at(s, 1)),
        model: &model,
        base: &base,
        joints: JointStates {
            positions: &positions[..entries.min(64)],
            speeds: &floats_at(s, lists.first, fast)[..fast],
            accelerations: &floats_at(s, lists.second, pushed)[..pushed],
        },
        loads: LoadTable {
            ids: &ids_at(s, lists.third, k)[..k],
            links: &load_links_at(s, lists.third, k)[..k],
            numbers: &wrenches_at(s, lists.third, k)[..6 * k],
        },
    };
    let mut output = floats_at(s, lists.last, wide);
    let told = asked(case, &mut output[..wide]);
    same_answer(number(told), &output[..wide], answer)
}

// How many cases there were, and how many answers agreed.
#[derive(Drop)]
struct Tally {
    run: u64,
    same: u64,
}

// All cases, at most a million.
fn replay() -> Tally {
    let mut case = io::large_buffer();
    let mut answer = io::large_buffer();
    let mut same = 0;
    for run in 0..1000000u64 {
        let Some(k) = read_frame(&mut case) else {
            return Tally { run, same };
        };
        let n = read_frame(&mut answer).unwrap_or(0);
        same += u64::from(turn(&case[..k], &answer[..n]));
    }
    Tally { run: 1000000, same }
}

fn main() {
    let t = replay();
    io::write_all(STDOUT_FILENO, b"calls ");
    io::print_decimal(STDOUT_FILENO, t.run);
    io::write_all(STDOUT_FILENO, b", answers that agree ");
    io::print_decimal(STDOUT_FILENO, t.same);
    io::write_all(STDOUT_FILENO, b"\n");
}
