// Models made by value, link by link and joint by joint.
#![tactic(auto)]

ghost use Rattle.std.specs.Prelude.{◌≡◌};
ghost use Rattle.build.specs.Build.{blank_link, blank_entry, blank_model, entry_of, with_link, with_joint};

use model::{Joint, JointEntry, Link, Model};
use spatial::constants::zero_vector;
use spatial::{Frame, Matrix3, Quaternion};

/// A link whose numbers are all 0.
pub fn blank_link() -> Link
    ensures { result ≡ blank_link }
{
    let zero = zero_vector();
    Link {
        mass: 0.0,
        center: zero,
        inertia: Matrix3 {
            x: zero,
            y: zero,
            z: zero,
        },
    }
}

/// A joint's entry whose numbers are all 0.
pub fn blank_entry() -> JointEntry
    ensures { result ≡ blank_entry }
{
    let zero = zero_vector();
    let rotation = Quaternion {
        w: 0.0,
        i: 0.0,
        j: 0.0,
        k: 0.0,
    };
    JointEntry {
        kind: 0,
        parent: 0,
        number: 0,
        origin: Frame {
            rotation,
            translation: zero,
        },
        axis: zero,
    }
}

/// A model of blank links and joints.
#[tactic(auto, unfolding(crate::specs::Build::blank_model))]
pub fn blank_model(id: u64, count: usize, moving: usize) -> Model
    ensures { result ≡ blank_model id count moving }
{
    Model {
        id,
        count,
        moving,
        links: [blank_link(); 64],
        joints: [blank_entry(); 63],
    }
}

fn entry_of(joint: Joint) -> JointEntry
    ensures { result ≡ entry_of joint }
{
    JointEntry {
        kind: u8::from(joint.kind),
        parent: joint.parent,
        number: joint.number,
        origin: joint.origin,
        axis: joint.axis,
    }
}

/// The model with link `l` replaced. A link past the table's end changes nothing.
#[tactic(auto, unfolding(crate::specs::Build::with_link))]
pub fn with_link(model: Model, l: usize, link: Link) -> Model
    ensures { result ≡ with_link model l link }
{
    if 64 <= l {
        return model;
    }
    let mut next = model;
    next.links[l] = link;
    next
}

/// The model with joint `j` replaced. A joint past the table's end changes nothing.
#[tactic(auto, unfolding(crate::specs::Build::with_joint))]
pub fn with_joint(model: Model, j: usize, joint: Joint) -> Model
    ensures { result ≡ with_joint model j joint }
{
    if 63 <= j {
        return model;
    }
    let mut next = model;
    next.joints[j] = entry_of(joint);
    next
}
