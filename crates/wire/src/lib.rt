// Big-endian numbers in tables of bytes.
#![tactic(auto)]

pub mod read;
pub mod write;
