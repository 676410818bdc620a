// The joints of a model's record: which can be written, and their bytes.
ghost use Rattle.std.specs.Prelude.{◌≡◌, ◌+◌, ◌-◌, ◌*◌, ◌≤◌, length};
ghost use Rattle.model.specs.Joints.{joint_numbers};
ghost use Rattle.model.specs.Tables.{joint_of};
ghost use Rattle.wire.specs.Placed.{placed};
ghost use Rattle.encode.specs.Joined.{joined};
ghost use Rattle.encode.specs.Models.{entry_bytes, joint_bytes, joint_writable, joints_writable};

use model::{JointEntry, Model};
use wire::write::{put_floats, put_u8, put_u16};

#[tactic(auto, unfolding(crate::specs::Models::joint_writable))]
fn joint_writable(entry: JointEntry) -> bool
    ensures { result ≡ joint_writable entry }
{
    let numbered = (entry.kind != 0) | (entry.number == 65535);
    (entry.kind <= 2) & (numbered & ((entry.parent < 65536) & (entry.number < 65536)))
}

#[tactic(auto, unfolding(spatial::specs::All::all, crate::specs::Models::joints_writable))]
pub(crate) fn joints_writable(model: &Model) -> bool
    requires { (1 ≤ model.now.count) × (model.now.count ≤ 64) }
    ensures { result ≡ joints_writable model.now }
{
    let mut good = true;
    for j in 0..model.count - 1 {
        good = good & joint_writable(model.joints[j]);
    }
    good
}

// Origin, rotation first, and axis.
fn joint_table(entry: JointEntry) -> [f64; 10]
    ensures { result ≡ joint_numbers (joint_of entry) }
{
    let r = entry.origin.rotation;
    let t = entry.origin.translation;
    let a = entry.axis;
    [r.w, r.i, r.j, r.k, t.x, t.y, t.z, a.x, a.y, a.z]
}

fn put_joint(out: &mut [u8], at: usize, entry: JointEntry)
    requires { at + 85 ≤ length out.old }
    ensures { out.new ≡ placed out.old at (entry_bytes entry) }
{
    put_u8(out, at, entry.kind);
    put_u16(out, at + 1, entry.parent);
    put_u16(out, at + 3, entry.number);
    put_floats(out, at + 5, &joint_table(entry));
}

#[tactic(auto, using(crate::proofs::JoinedLaws::joined_start))]
pub(crate) fn put_joints(out: &mut [u8], at: usize, model: &Model)
    requires { (1 ≤ model.now.count) × (model.now.count ≤ 64) × (at + 85 * (model.now.count - 1) ≤ length out.old) }
    ensures { out.new ≡ placed out.old at (joined (model.now.count - 1) (joint_bytes model.now)) }
{
    for (j, joint) in model.joints[..model.count - 1].iter().enumerate() {
        put_joint(out, at + 85 * j, *joint);
    }
}
