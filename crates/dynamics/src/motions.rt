// Motions from link to link, and the wrench that a link's motion takes.
ghost use Rattle.std.specs.Prelude.{◌≡◌, true, ◌<◌, length};
ghost use Rattle.model.specs.View.{moves};
ghost use Rattle.dynamics.specs.Motions.{root_motion, acceleration_at, carried, turning, sliding, driven, moved, inertial_wrench};
ghost use Rattle.dynamics.specs.Runs.{value_in};

use crate::Motion;
use model::{Joint, JointType, Link};
use spatial::rotations::{inverse, rotate, to_rotation_matrix, transform};
use spatial::vectors::{add, cross, scale};
use spatial::{Frame, Quaternion, Twist, Vector3, Wrench};

/// The root's motion in its own axes, gravity with its linear acceleration.
#[tactic(auto, unfolding(crate::specs::Motions::root_motion))]
pub fn root_motion(
    base: Quaternion,
    velocity: Twist,
    acceleration: Twist,
    gravity: Vector3,
) -> Motion
    ensures { result ≡ root_motion base velocity acceleration gravity }
{
    let turn = inverse(base);
    Motion {
        omega: rotate(turn, velocity.angular),
        alpha: rotate(turn, acceleration.angular),
        acceleration: rotate(turn, add(gravity, acceleration.linear)),
    }
}

// The acceleration of a point of a link.
#[tactic(auto, unfolding(crate::specs::Motions::acceleration_at))]
fn acceleration_at(m: Motion, p: Vector3) -> Vector3
    ensures { result ≡ acceleration_at m p }
{
    let w = m.omega;
    add(
        add(m.acceleration, cross(m.alpha, p)),
        cross(w, cross(w, p)),
    )
}

// The parent's motion, in the child's axes at the child's origin.
#[tactic(auto, unfolding(crate::specs::Motions::carried))]
fn carried(frame: Frame, m: Motion) -> Motion
    ensures { result ≡ carried frame m }
{
    let matrix = to_rotation_matrix(inverse(frame.rotation));
    Motion {
        omega: transform(matrix, m.omega),
        alpha: transform(matrix, m.alpha),
        acceleration: transform(matrix, acceleration_at(m, frame.translation)),
    }
}

// What a revolute joint's speed and acceleration add.
#[tactic(auto, unfolding(crate::specs::Motions::turning))]
fn turning(axis: Vector3, v: f64, d: f64, m: Motion) -> Motion
    ensures { result ≡ turning axis v d m }
{
    let spin = scale(axis, v);
    let omega = m.omega;
    let acceleration = m.acceleration;
    Motion {
        omega: add(omega, spin),
        alpha: add(add(m.alpha, scale(axis, d)), cross(omega, spin)),
        acceleration,
    }
}

// What a prismatic joint's speed and acceleration add.
fn sliding(axis: Vector3, v: f64, d: f64, m: Motion) -> Motion
    ensures { result ≡ sliding axis v d m }
{
    let omega = m.omega;
    let alpha = m.alpha;
    let turn = scale(cross(omega, axis), 2.0 * v);
    Motion {
        omega,
        alpha,
        acceleration: add(add(m.acceleration, scale(axis, d)), turn),
    }
}

#[tactic(auto, unfolding(crate::specs::Motions::driven))]
fn driven(kind: JointType, axis: Vector3, v: f64, d: f64, m: Motion) -> Motion
    ensures { result ≡ driven kind axis v d m }
{
    match kind {
        JointType::Fixed => m,
        JointType::Revolute => turning(axis, v, d, m),
        JointType::Prismatic => sliding(axis, v, d, m),
    }
}

// A joint's step from its parent's motion.
#[tactic(auto, unfolding(crate::specs::Motions::moved))]
fn moved(frame: Frame, kind: JointType, axis: Vector3, v: f64, d: f64, m: Motion) -> Motion
    ensures { result ≡ moved frame kind axis v d m }
{
    driven(kind, axis, v, d, carried(frame, m))
}

// A moving joint's number in a list; a fixed joint takes +0.
#[tactic(auto, unfolding(crate::specs::Runs::value_in))]
fn value_in(kind: JointType, number: usize, list: &[f64]) -> f64
    requires { moves kind ≡ true → number < length list.now }
    ensures { result ≡ value_in kind number list.now }
{
    match kind {
        JointType::Fixed => 0.0,
        JointType::Revolute | JointType::Prismatic => list[number],
    }
}

/// A joint's step, at its speed and acceleration in the lists.
pub fn moved_in<'a>(
    joint: Joint,
    frame: Frame,
    speeds: &'a [f64],
    accelerations: &'a [f64],
    m: Motion,
) -> Motion
    requires { (moves joint.kind ≡ true → joint.number < length speeds.now) × (moves joint.kind ≡ true → joint.number < length accelerations.now) }
    ensures { result ≡ moved frame joint.kind joint.axis (value_in joint.kind joint.number speeds.now) (value_in joint.kind joint.number accelerations.now) m }
{
    let kind = joint.kind;
    let number = joint.number;
    let v = value_in(kind, number, speeds);
    let d = value_in(kind, number, accelerations);
    moved(frame, kind, joint.axis, v, d, m)
}

/// The wrench that a link's motion takes, by its mass and its inertia.
#[inline(always)]
#[tactic(auto, unfolding(crate::specs::Motions::inertial_wrench))]
pub fn inertial_wrench(link: Link, m: Motion) -> Wrench
    ensures { result ≡ inertial_wrench link m }
{
    let center = link.center;
    let inertia = link.inertia;
    let omega = m.omega;
    let force = scale(acceleration_at(m, center), link.mass);
    let spin = cross(omega, transform(inertia, omega));
    Wrench {
        torque: add(add(cross(center, force), transform(inertia, m.alpha)), spin),
        force,
    }
}
