// Loads: their sums link by link.
#![tactic(auto)]

pub mod checks;
pub mod sums;

use spatial::Wrench;

// A resisting wrench at a link's origin, in the link's frame.
#[derive(Clone, Copy)]
pub struct Load {
    pub id: u64,
    pub link: usize,
    pub wrench: Wrench,
}

/// Loads in three parts: the id and the link of each, and six numbers a load, torque before force.
#[derive(Clone, Copy)]
pub struct LoadTable<'a> {
    pub ids: &'a [u64],
    pub links: &'a [usize],
    pub numbers: &'a [f64],
}
