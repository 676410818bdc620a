// Vectors: sum, scale, cross, dot.
ghost use Rattle.std.specs.Prelude.{◌≡◌};
ghost use Rattle.spatial.specs.Vectors.{vector_sum, scaled, crossed, dotted};

use crate::Vector3;

pub fn add(a: Vector3, b: Vector3) -> Vector3
    ensures { result ≡ vector_sum a b }
{
    Vector3 {
        x: a.x + b.x,
        y: a.y + b.y,
        z: a.z + b.z,
    }
}

pub fn scale(a: Vector3, s: f64) -> Vector3
    ensures { result ≡ scaled a s }
{
    Vector3 {
        x: a.x * s,
        y: a.y * s,
        z: a.z * s,
    }
}

pub fn cross(a: Vector3, b: Vector3) -> Vector3
    ensures { result ≡ crossed a b }
{
    Vector3 {
        x: a.y * b.z - a.z * b.y,
        y: a.z * b.x - a.x * b.z,
        z: a.x * b.y - a.y * b.x,
    }
}

pub fn dot(a: Vector3, b: Vector3) -> f64
    ensures { result ≡ dotted a b }
{
    a.x * b.x + a.y * b.y + a.z * b.z
}
