// What tells inverse dynamics and gravity apart: what a link takes from its parent, and the wrench that it bears of its own.
ghost use Rattle.std.specs.Prelude.{ℕ, true, ◌≡◌, ◌<◌, ◌≤◌, ◌↔◌, IsTrue, length, min};
ghost use Rattle.spatial.specs.Past.{no_vector};
ghost use Rattle.spatial.specs.declared.Frame.{Frame as FrameRecord};
ghost use Rattle.spatial.specs.declared.Wrench.{Wrench as WrenchRecord};
ghost use Rattle.model.specs.View.{moves};
ghost use Rattle.model.specs.declared.Joint.{Joint as JointRecord};
ghost use Rattle.model.specs.declared.Link.{Link as LinkRecord};
ghost use Rattle.dynamics.specs.Motions.{inertial_wrench};
ghost use Rattle.dynamics.specs.Weights.{gravity_wrench};
ghost use Rattle.sweeps.specs.Kernels.{no_motion, driven_step, gravity_step};

use dynamics::Motion;
use dynamics::motions::{inertial_wrench, moved_in};
use dynamics::weights::{gravity_wrench, turned};
use model::{Joint, Link};
use spatial::{Frame, Vector3, Wrench};

/// A kernel of the two sweeps.
pub trait Kernel {
    /// What a link takes from its parent.
    type Value: Copy;

    // What stands past the end of a table of values.
    ghost none: { Self.Value };

    // How many numbers the kernel's lists have.
    ghost room: { Self → ℕ };

    // A joint's step from the value at its parent, with its frame at its pose.
    ghost step: { Self → JointRecord → FrameRecord → Self.Value → Self.Value };

    // The wrench of a link's own.
    ghost own: { LinkRecord → Self.Value → WrenchRecord };

    /// Whether the kernel's lists have m numbers.
    fn has_room(&self, m: usize) -> bool
        ensures { IsTrue result ↔ (m ≤ room self.now) };

    /// The value at a joint's link, from the one at its parent.
    fn carry(&self, joint: Joint, frame: Frame, parent: Self::Value) -> Self::Value
        requires { moves joint.kind ≡ true → joint.number < room self.now }
        ensures { result ≡ step self.now joint frame parent };

    /// The wrench that a link bears of its own.
    fn bear(&self, link: Link, value: Self::Value) -> Wrench
        ensures { result ≡ own link value };
}

/// Inverse dynamics: a motion from link to link, by the moving joints' speeds and accelerations.
#[derive(Clone, Copy)]
pub struct InverseDynamics<'a> {
    pub speeds: &'a [f64],
    pub accelerations: &'a [f64],
}

/// Gravity alone, turned from link to link.
#[derive(Clone, Copy)]
pub struct Gravity;

impl<'a> Kernel for InverseDynamics<'a> {
    type Value = Motion;

    ghost none = { no_motion };

    ghost room = { λ k. min (length k.speeds.now) (length k.accelerations.now) };

    ghost step = { λ k. driven_step k.speeds.now k.accelerations.now };

    ghost own = { inertial_wrench };

    fn has_room(&self, m: usize) -> bool {
        (m <= self.speeds.len()) & (m <= self.accelerations.len())
    }

    fn carry(&self, joint: Joint, frame: Frame, parent: Motion) -> Motion {
        moved_in(joint, frame, self.speeds, self.accelerations, parent)
    }

    #[inline(always)]
    fn bear(&self, link: Link, value: Motion) -> Wrench {
        inertial_wrench(link, value)
    }
}

impl Kernel for Gravity {
    type Value = Vector3;

    ghost none = { no_vector };

    // It reads no list.
    ghost room = { λ _. 63 };

    ghost step = { λ _. gravity_step };

    ghost own = { gravity_wrench };

    fn has_room(&self, m: usize) -> bool {
        m <= 63
    }

    fn carry(&self, joint: Joint, frame: Frame, parent: Vector3) -> Vector3 {
        turned(frame.rotation, parent)
    }

    #[inline(always)]
    fn bear(&self, link: Link, value: Vector3) -> Wrench {
        gravity_wrench(link, value)
    }
}
