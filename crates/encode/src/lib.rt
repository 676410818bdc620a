// Byte records of models and calls, written into lent tables.
#![tactic(auto)]

pub mod calls;
pub mod heads;
pub mod joints;
pub mod links;
pub mod lists;
pub mod models;

use model::{BaseState, Pose, RootMode};
use outcome::Function;

/// What is asked of a robot. The speeds (rad/s or m/s) and the accelerations (rad/s2 or m/s2) are one to each position. Load i is on link
/// `links[i]` and has six of the numbers from 6 i on: a torque (N m), then a force (N).
#[derive(Clone, Copy)]
pub struct CallArguments<'a> {
    pub function: Function,
    pub mode: RootMode,
    pub base: BaseState,
    pub positions: &'a [Pose],
    pub speeds: &'a [f64],
    pub accelerations: &'a [f64],
    pub links: &'a [usize],
    pub numbers: &'a [f64],
}
