// What a call comes to: its refusal or its figures, over a model and in the order of the rules.
#![tactic(auto)]

pub mod checks;
pub mod gravity;
pub mod inverse;
pub mod roots;
pub mod scratch;
pub mod solve;
pub mod velocity;

use model::Pose;

/// What is asked of a robot.
#[derive(Clone, Copy)]
pub enum Function {
    InverseDynamics,
    Gravity,
    VelocityProduct,
}

/// Where the moving joints are and how they move, each list by the joints' numbers: a pose, a speed (rad/s or m/s) and an acceleration
/// (rad/s2 or m/s2).
#[derive(Clone, Copy)]
pub struct JointStates<'a> {
    pub positions: &'a [Pose],
    pub speeds: &'a [f64],
    pub accelerations: &'a [f64],
}
