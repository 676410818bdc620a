// Gravity from link to link, and a link's weight.
ghost use Rattle.std.specs.Prelude.{◌≡◌};
ghost use Rattle.dynamics.specs.Weights.{turned, gravity_wrench};

use model::Link;
use spatial::rotations::{inverse, rotate};
use spatial::vectors::{cross, scale};
use spatial::{Quaternion, Vector3, Wrench};

/// Gravity in the axes that a rotation leads to.
#[tactic(auto, unfolding(crate::specs::Weights::turned))]
pub fn turned(rotation: Quaternion, g: Vector3) -> Vector3
    ensures { result ≡ turned rotation g }
{
    rotate(inverse(rotation), g)
}

/// The wrench that bears a link's weight.
#[tactic(auto, unfolding(crate::specs::Weights::gravity_wrench))]
pub fn gravity_wrench(link: Link, g: Vector3) -> Wrench
    ensures { result ≡ gravity_wrench link g }
{
    let force = scale(g, link.mass);
    Wrench {
        torque: cross(link.center, force),
        force,
    }
}
