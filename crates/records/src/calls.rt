// The parts of the call that a record means.
ghost use Rattle.std.specs.Prelude.{◌≡◌, ◌+◌, ◌*◌, ◌≤◌, length, replicate};
ghost use Rattle.spatial.specs.Constants.{plus_zero};
ghost use Rattle.loads.specs.Sums.{summed, start_sums, prepared_sums};
ghost use Rattle.wire.specs.Big.{f64_at};
ghost use Rattle.wire.specs.Fill.{fill};
ghost use Rattle.records.specs.Places.{pose_place, load_place};
ghost use Rattle.records.specs.Parts.{vector_in, twist_in, frame_in};
ghost use Rattle.records.specs.Calls.{function_of, mode_of, base_in, pose_in, positions_in, load_in, loads_in};

use crate::shape::CallShape;
use loads::Load;
use loads::sums::add_load;
use model::{BaseState, Pose, RootMode};
use outcome::Function;
use refusal::Refusal;
use spatial::{Frame, Quaternion, Twist, Vector3, Wrench};
use wire::read::{f64_at, size_at};

/// The function that is called, by its code: 1 inverse dynamics, 2 gravity, any other velocity product.
#[tactic(auto, unfolding(crate::specs::Calls::function_of))]
pub fn function_of(code: u8) -> Function
    ensures { result ≡ function_of code }
{
    match code {
        1 => Function::InverseDynamics,
        2 => Function::Gravity,
        _ => Function::VelocityProduct,
    }
}

/// How the root is held, by its code: 0 fixed, 1 floating.
#[tactic(auto, unfolding(crate::specs::Calls::mode_of))]
pub fn mode_of(code: u8) -> RootMode
    ensures { result ≡ mode_of code }
{
    if code == 0 {
        RootMode::Fixed
    } else {
        RootMode::Floating
    }
}

#[tactic(auto, unfolding(crate::specs::Parts::vector_in))]
pub(crate) fn vector_in(s: &[u8], at: usize) -> Vector3
    requires { at + 24 ≤ length s.now }
    ensures { result ≡ vector_in s.now at }
{
    Vector3 {
        x: f64_at(s, at),
        y: f64_at(s, at + 8),
        z: f64_at(s, at + 16),
    }
}

#[tactic(auto, unfolding(crate::specs::Parts::twist_in))]
fn twist_in(s: &[u8], at: usize) -> Twist
    requires { at + 48 ≤ length s.now }
    ensures { result ≡ twist_in s.now at }
{
    Twist {
        angular: vector_in(s, at),
        linear: vector_in(s, at + 24),
    }
}

#[tactic(auto, unfolding(crate::specs::Parts::frame_in))]
pub(crate) fn frame_in(s: &[u8], at: usize) -> Frame
    requires { at + 56 ≤ length s.now }
    ensures { result ≡ frame_in s.now at }
{
    Frame {
        rotation: Quaternion {
            w: f64_at(s, at),
            i: f64_at(s, at + 8),
            j: f64_at(s, at + 16),
            k: f64_at(s, at + 24),
        },
        translation: vector_in(s, at + 32),
    }
}

/// The base state at a place: the root's frame, velocity and acceleration.
#[tactic(auto, unfolding(crate::specs::Calls::base_in))]
pub fn base_in(s: &[u8], at: usize) -> BaseState
    requires { at + 152 ≤ length s.now }
    ensures { result ≡ base_in s.now at }
{
    BaseState {
        frame: frame_in(s, at),
        velocity: twist_in(s, at + 56),
        acceleration: twist_in(s, at + 104),
    }
}

#[tactic(auto, unfolding(crate::specs::Calls::pose_in))]
fn pose_in(s: &[u8], at: usize) -> Pose
    requires { at + 17 ≤ length s.now }
    ensures { result ≡ pose_in s.now at }
{
    let first = f64_at(s, at + 1);
    if s[at] == 1 {
        return Pose::Half(first, f64_at(s, at + 9));
    }
    Pose::Slide(first)
}

/// The m entries of a call at place c, and distances of 0 after them.
#[tactic(auto, unfolding(crate::specs::Calls::positions_in, wire::specs::Fill::fill))]
pub fn positions_in(s: &[u8], c: usize, m: usize) -> [Pose; 63]
    requires { (c ≤ 20000) × (m ≤ 63) × (pose_place c m ≤ length s.now) }
    ensures { result ≡ positions_in s.now c m }
{
    let mut positions = [Pose::Slide(0.0); 63];
    for i in 0..m {
        positions[i] = pose_in(s, c + 164 + 17 * i);
    }
    positions
}

/// The m numbers from a place on, and zeros after them.
#[tactic(auto, unfolding(wire::specs::Fill::fill))]
pub fn floats_in(s: &[u8], at: usize, m: usize) -> [f64; 63]
    requires { (at ≤ 40000) × (m ≤ 63) × (at + 8 * m ≤ length s.now) }
    ensures { result ≡ fill (λ i. f64_at s.now (at + 8 * i)) (replicate 63 plus_zero) m }
{
    let mut floats = [0.0; 63];
    for i in 0..m {
        floats[i] = f64_at(s, at + 8 * i);
    }
    floats
}

#[tactic(auto, unfolding(crate::specs::Calls::load_in))]
fn load_in(s: &[u8], at: usize) -> Load
    requires { at + 50 ≤ length s.now }
    ensures { result ≡ load_in s.now at }
{
    Load {
        id: 0,
        link: size_at(s, at),
        wrench: Wrench {
            torque: vector_in(s, at + 2),
            force: vector_in(s, at + 26),
        },
    }
}

// The sums of a call's loads, for n links, in a table of +0.
pub(crate) fn sums_in(
    s: &[u8],
    call: CallShape,
    n: usize,
    sums: &mut [Wrench; 64],
) -> Result<(), Refusal>
    requires place { (call.place ≤ 20000) × (call.moving ≤ 63) × (call.loads ≤ 256) × (load_place call.place call.moving call.loads ≤ length s.now) }
    requires begun { sums.old ≡ start_sums.sums }
    ensures { summed result sums.new ≡ prepared_sums 0 n (loads_in s.now call.place call.moving call.loads) }
{
    for i in 0..call.loads {
        let at = call.place + 164 + 33 * call.moving + 50 * i;
        add_load(0, n, load_in(s, at), sums)?;
    }
    Ok(())
}
