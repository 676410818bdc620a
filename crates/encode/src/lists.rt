// The lists of a call's record: poses and loads.
ghost use Rattle.std.specs.Prelude.{◌≡◌, ◌+◌, ◌*◌, ◌≤◌, ◌<◌, [], ◌∷◌, ◌++◌, length, take, drop};
ghost use Rattle.wire.specs.Big.{bytes16, float_bytes};
ghost use Rattle.wire.specs.Placed.{placed};
ghost use Rattle.encode.specs.Joined.{joined};
ghost use Rattle.encode.specs.Calls.{pose_tag, pose_floats, pose_bytes, load_bytes, links_writable};

use model::Pose;
use wire::write::{put_f64, put_floats, put_u8, put_u16};

fn put_pair(out: &mut [u8], at: usize, tag: u8, first: f64, second: f64)
    requires { at + 17 ≤ length out.old }
    ensures { out.new ≡ placed out.old at (tag ∷ float_bytes (first ∷ second ∷ [])) }
{
    put_u8(out, at, tag);
    put_f64(out, at + 1, first);
    put_f64(out, at + 9, second);
}

fn put_pose(out: &mut [u8], at: usize, pose: Pose)
    requires { at + 17 ≤ length out.old }
    ensures { out.new ≡ placed out.old at (pose_tag pose ∷ float_bytes (pose_floats pose)) }
{
    match pose {
        Pose::Half(s, c) => put_pair(out, at, 1, s, c),
        Pose::Slide(x) => put_pair(out, at, 2, x, 0.0),
    }
}

#[tactic(auto, using(crate::proofs::JoinedLaws::joined_start))]
pub(crate) fn put_poses(out: &mut [u8], at: usize, positions: &[Pose])
    requires { (length positions.now ≤ 63) × (at + 17 * length positions.now ≤ length out.old) }
    ensures { out.new ≡ placed out.old at (joined (length positions.now) (pose_bytes positions.now)) }
{
    for (i, pose) in positions.iter().enumerate() {
        put_pose(out, at + 17 * i, *pose);
    }
}

// A load's six numbers stand in their table from `from` on.
fn put_load(out: &mut [u8], at: usize, link: usize, numbers: &[f64], from: usize)
    requires { (at + 50 ≤ length out.old) × (from + 6 ≤ length numbers.now) }
    ensures { out.new ≡ placed out.old at (bytes16 link ++ float_bytes (take 6 (drop from numbers.now))) }
{
    put_u16(out, at, link);
    put_floats(out, at + 2, &numbers[from..from + 6]);
}

#[tactic(auto, using(crate::proofs::JoinedLaws::joined_start))]
pub(crate) fn put_loads(out: &mut [u8], at: usize, links: &[usize], numbers: &[f64])
    requires { (length links.now ≤ 256) × (at + 50 * length links.now ≤ length out.old) × (length numbers.now ≡ 6 * length links.now) }
    ensures { out.new ≡ placed out.old at (joined (length links.now) (load_bytes links.now numbers.now)) }
{
    for (i, link) in links.iter().enumerate() {
        put_load(out, at + 50 * i, *link, numbers, 6 * i);
    }
}

// Link numbers of two bytes.
#[tactic(auto, unfolding(spatial::specs::All::all, crate::specs::Calls::links_writable))]
pub(crate) fn links_writable(links: &[usize]) -> bool
    ensures { result ≡ links_writable links.now }
{
    let mut good = true;
    for link in links {
        good = good & (*link < 65536);
    }
    good
}
