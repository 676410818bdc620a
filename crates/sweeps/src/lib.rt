// The two sweeps over a model, for either kernel: outward with a quick test of the model, and inward to the figures.
#![tactic(auto)]

pub mod floating;
pub mod inward;
pub mod kernel;
pub mod outward;
