// The steps of inverse dynamics and gravity: joint frames, motions, wrenches and figures.
#![tactic(auto)]

pub mod figures;
pub mod frames;
pub mod motions;
pub mod weights;

use spatial::Vector3;

// A link's angular velocity, angular acceleration and linear acceleration, in its own axes at its origin.
#[derive(Clone, Copy, Default)]
pub struct Motion {
    pub omega: Vector3,
    pub alpha: Vector3,
    pub acceleration: Vector3,
}
