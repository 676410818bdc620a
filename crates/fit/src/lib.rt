// Which numbers are fit to reckon with: the finite test, the test for +0 and the unit test.
#![tactic(auto)]

pub mod finite;
pub mod unit;
