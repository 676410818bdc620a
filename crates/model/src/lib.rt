// A robot as tables of links and joints, and what a good model, base state and pose are.
#![tactic(auto)]

pub mod bases;
pub mod joints;
pub mod links;
pub mod lists;
pub mod numbers;
pub mod poses;
pub mod tables;
pub mod walk;

use spatial::{Frame, Matrix3, Twist, Vector3};

/// A link: its mass (kg), its centre of mass (m) and its inertia about that (kg m2), in the link's axes.
#[derive(Clone, Copy)]
pub struct Link {
    pub mass: f64,
    pub center: Vector3,
    pub inertia: Matrix3,
}

/// How a joint moves: not at all, about its axis, or along it.
#[derive(Clone, Copy)]
pub enum JointType {
    Fixed,
    Revolute,
    Prismatic,
}

/// A joint, from its parent link to the link after its own number. A fixed joint's moving number is 65535.
#[derive(Clone, Copy)]
pub struct Joint {
    pub kind: JointType,
    pub parent: usize,
    pub number: usize,
    pub origin: Frame,
    pub axis: Vector3,
}

/// A joint as it stands in a model's table, whatever stands there. Kinds: 0 fixed, 1 revolute, 2 prismatic.
#[derive(Clone, Copy)]
pub struct JointEntry {
    pub kind: u8,
    pub parent: usize,
    pub number: usize,
    pub origin: Frame,
    pub axis: Vector3,
}

/// A model: `count` links, of which link 0 is the root, and a joint for each other link: joint j leads to link j + 1. `moving` of the joints
/// move. Places past the last link and the last joint are not read.
#[derive(Clone, Copy)]
pub struct Model {
    pub id: u64,
    pub count: usize,
    pub moving: usize,
    pub links: [Link; 64],
    pub joints: [JointEntry; 63],
}

/// The root link's pose and motion in the world.
#[derive(Clone, Copy)]
pub struct BaseState {
    pub frame: Frame,
    pub velocity: Twist,
    pub acceleration: Twist,
}

/// A half-angle pair (sine, cosine) of a revolute joint, or a prismatic joint's distance (m).
#[derive(Clone, Copy)]
pub enum Pose {
    Half(f64, f64),
    Slide(f64),
}

/// Whether the root is held, or moves and bears a wrench of its own.
#[derive(Clone, Copy)]
pub enum RootMode {
    Fixed,
    Floating,
}
