// Small records of doubles, with the plain functions over them that 01 names in "The float steps".
#![tactic(auto)]

pub mod constants;
pub mod rotations;
pub mod tables;
pub mod vectors;
pub mod wrenches;

#[derive(Clone, Copy, Default)]
pub struct Vector3 {
    pub x: f64,
    pub y: f64,
    pub z: f64,
}

// w, then the vector part.
#[derive(Clone, Copy, Default)]
pub struct Quaternion {
    pub w: f64,
    pub i: f64,
    pub j: f64,
    pub k: f64,
}

// Three rows.
#[derive(Clone, Copy)]
pub struct Matrix3 {
    pub x: Vector3,
    pub y: Vector3,
    pub z: Vector3,
}

// A velocity or an acceleration of a body.
#[derive(Clone, Copy)]
pub struct Twist {
    pub angular: Vector3,
    pub linear: Vector3,
}

#[derive(Clone, Copy)]
pub struct Wrench {
    pub torque: Vector3,
    pub force: Vector3,
}

// Where a child's axes stand in its parent's.
#[derive(Clone, Copy, Default)]
pub struct Frame {
    pub rotation: Quaternion,
    pub translation: Vector3,
}
