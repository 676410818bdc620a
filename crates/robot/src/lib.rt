// The three functions over a model, fixed and floating: every call is answered.
#![tactic(auto)]

pub mod gravity;
pub mod inverse;
pub mod velocity;
