// Rotations: quaternions, their matrices, and both on a vector.
ghost use Rattle.std.specs.Prelude.{◌≡◌};
ghost use Rattle.spatial.specs.Rotations.{inverted, multiplied, rotated, matrix_of, transformed};

use crate::vectors::{add, cross, dot, scale};
use crate::{Matrix3, Quaternion, Vector3};

pub fn inverse(q: Quaternion) -> Quaternion
    ensures { result ≡ inverted q }
{
    Quaternion {
        w: q.w,
        i: -q.i,
        j: -q.j,
        k: -q.k,
    }
}

pub fn product(a: Quaternion, b: Quaternion) -> Quaternion
    ensures { result ≡ multiplied a b }
{
    Quaternion {
        w: a.w * b.w - a.i * b.i - a.j * b.j - a.k * b.k,
        i: a.w * b.i + a.i * b.w + a.j * b.k - a.k * b.j,
        j: a.w * b.j - a.i * b.k + a.j * b.w + a.k * b.i,
        k: a.w * b.k + a.i * b.j - a.j * b.i + a.k * b.w,
    }
}

// A quaternion on a vector.
pub fn rotate(q: Quaternion, v: Vector3) -> Vector3
    ensures { result ≡ rotated q v }
{
    let u = Vector3 {
        x: q.i,
        y: q.j,
        z: q.k,
    };
    let t = scale(cross(u, v), 2.0);
    add(add(scale(t, q.w), cross(u, t)), v)
}

pub fn to_rotation_matrix(q: Quaternion) -> Matrix3
    ensures { result ≡ matrix_of q }
{
    let ww = q.w * q.w;
    let ii = q.i * q.i;
    let jj = q.j * q.j;
    let kk = q.k * q.k;
    let ij = q.i * q.j * 2.0;
    let wk = q.w * q.k * 2.0;
    let wj = q.w * q.j * 2.0;
    let ik = q.i * q.k * 2.0;
    let jk = q.j * q.k * 2.0;
    let wi = q.w * q.i * 2.0;
    Matrix3 {
        x: Vector3 {
            x: ww + ii - jj - kk,
            y: ij - wk,
            z: wj + ik,
        },
        y: Vector3 {
            x: wk + ij,
            y: ww - ii + jj - kk,
            z: jk - wi,
        },
        z: Vector3 {
            x: ik - wj,
            y: wi + jk,
            z: ww - ii - jj + kk,
        },
    }
}

// A matrix on a vector.
pub fn transform(m: Matrix3, v: Vector3) -> Vector3
    ensures { result ≡ transformed m v }
{
    Vector3 {
        x: dot(m.x, v),
        y: dot(m.y, v),
        z: dot(m.z, v),
    }
}
