// The model that a record means.
ghost use Rattle.std.specs.Prelude.{◌≡◌, ◌+◌, ◌≤◌, length};
ghost use Rattle.records.specs.Places.{call_place, link_count};
ghost use Rattle.records.specs.Models.{link_in, entry_in, model_in};

use crate::calls::{frame_in, vector_in};
use build::blank_model;
use model::{JointEntry, Link, Model};
use spatial::Matrix3;
use wire::read::{f64_at, size_at};

#[tactic(auto, unfolding(crate::specs::Models::link_in))]
fn link_in(s: &[u8], at: usize) -> Link
    requires { at + 104 ≤ length s.now }
    ensures { result ≡ link_in s.now at }
{
    Link {
        mass: f64_at(s, at),
        center: vector_in(s, at + 8),
        inertia: Matrix3 {
            x: vector_in(s, at + 32),
            y: vector_in(s, at + 56),
            z: vector_in(s, at + 80),
        },
    }
}

#[tactic(auto, unfolding(crate::specs::Models::entry_in))]
fn entry_in(s: &[u8], at: usize) -> JointEntry
    requires { at + 85 ≤ length s.now }
    ensures { result ≡ entry_in s.now at }
{
    JointEntry {
        kind: s[at],
        parent: size_at(s, at + 1),
        number: size_at(s, at + 3),
        origin: frame_in(s, at + 5),
        axis: vector_in(s, at + 61),
    }
}

/// The model of a record whose counts fit it. Its id is 0; places past the last link and joint hold zeros.
#[tactic(auto, unfolding(wire::specs::Fill::fill, build::specs::Build::blank_model, crate::specs::Models::model_in))]
pub fn model_in(s: &[u8]) -> Model
    requires { (1 ≤ link_count s.now) × (link_count s.now ≤ 64) × (call_place (link_count s.now) ≤ length s.now) }
    ensures { result ≡ model_in s.now }
{
    let count = size_at(s, 6);
    let moving = size_at(s, 8);
    let mut model = blank_model(0, count, moving);
    for l in 0..count {
        model.links[l] = link_in(s, 10 + 104 * l);
    }
    let joints = 10 + 104 * count;
    for j in 0..count - 1 {
        model.joints[j] = entry_in(s, joints + 85 * j);
    }
    model
}
