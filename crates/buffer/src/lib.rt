// The load buffer: at most one load for each link of a model, in the order in which they came.
#![tactic(auto)]

pub mod calls;
pub mod tables;

use loads::Load;
use spatial::Wrench;

// What a place of a buffer holds; link 0 and +0 where it is free.
#[derive(Clone, Copy)]
pub struct Stored {
    pub link: usize,
    pub wrench: Wrench,
}

// At most one load for each of `links` links, `count` of them at the first places; each link's place, or usize::MAX.
#[derive(Clone, Copy)]
pub struct LoadBuffer {
    pub id: u64,
    pub links: usize,
    pub count: usize,
    pub positions: [usize; 64],
    pub loads: [Stored; 64],
}

/// A listing by value: how many loads there are, and these in stored order at the front of 64 places. A place after them has id 0, link 0
/// and +0.
#[derive(Clone, Copy)]
pub struct Listing {
    pub count: usize,
    pub loads: [Load; 64],
}
