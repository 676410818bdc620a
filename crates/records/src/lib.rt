// Byte records: any bytes are read, asked of the library and answered by bytes.
#![tactic(auto)]

pub mod answer;
pub mod answers;
pub mod ask;
pub mod calls;
pub mod laid;
pub mod models;
pub mod shape;
