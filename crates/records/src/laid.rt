// The layout of a model record and of the call record after it.
ghost use Rattle.std.specs.Prelude.{◌≡◌, ◌+◌, ◌-◌, ◌*◌, ◌≤◌, length};
ghost use Rattle.spatial.specs.All.{all};
ghost use Rattle.records.specs.Places.{call_place, joint_place, pose_place};
ghost use Rattle.records.specs.Layout.{headed, joint_laid, pose_laid, model_laid, call_laid, laid, layout_checked};

use crate::shape::CallShape;
use refusal::Refusal;
use wire::read::{size_at, u16_at, u32_at, u64_at};

// Length, version 1 and kind.
#[tactic(auto, unfolding(crate::specs::Layout::headed))]
fn head_laid(s: &[u8], at: usize, size: usize, kind: u8) -> bool
    requires { at + 6 ≤ length s.now }
    ensures { result ≡ headed s.now at size kind }
{
    (u32_at(s, at) as usize == size) & ((s[at + 4] == 1) & (s[at + 5] == kind))
}

#[tactic(auto, unfolding(crate::specs::Layout::joint_laid))]
fn joint_laid(s: &[u8], at: usize) -> bool
    requires { at + 5 ≤ length s.now }
    ensures { result ≡ joint_laid s.now at }
{
    let kind = s[at];
    (kind <= 2) & (!(kind == 0) | (u16_at(s, at + 3) == 65535))
}

#[tactic(auto, unfolding(crate::specs::Layout::pose_laid))]
fn pose_laid(s: &[u8], at: usize) -> bool
    requires { at + 17 ≤ length s.now }
    ensures { result ≡ pose_laid s.now at }
{
    let tag = s[at];
    (tag == 1) | ((tag == 2) & (u64_at(s, at + 9) == 0))
}

#[tactic(auto, unfolding(spatial::specs::All::all))]
fn joints_laid(s: &[u8], n: usize, joints: usize) -> bool
    requires { (n ≤ 64) × (joints ≤ 63) × (joint_place n joints ≤ length s.now) }
    ensures { result ≡ all joints (λ j. joint_laid s.now (joint_place n j)) }
{
    let mut good = true;
    for j in 0..joints {
        good = good & joint_laid(s, 10 + 104 * n + 85 * j);
    }
    good
}

#[tactic(auto, unfolding(spatial::specs::All::all))]
fn poses_laid(s: &[u8], c: usize, m: usize) -> bool
    requires { (c ≤ 20000) × (m ≤ 63) × (pose_place c m ≤ length s.now) }
    ensures { result ≡ all m (λ i. pose_laid s.now (pose_place c i)) }
{
    let mut good = true;
    for i in 0..m {
        good = good & pose_laid(s, c + 164 + 17 * i);
    }
    good
}

#[tactic(auto, unfolding(crate::specs::Layout::model_laid))]
fn model_laid(s: &[u8], n: usize) -> bool
    requires { (1 ≤ n) × (n ≤ 64) × (call_place n ≤ length s.now) }
    ensures { result ≡ model_laid s.now n }
{
    head_laid(s, 0, 6 + 104 * n + 85 * (n - 1), 1) & joints_laid(s, n, n - 1)
}

// Whether the bytes hold a call of this shape.
#[tactic(auto, unfolding(crate::specs::Layout::call_laid))]
fn call_laid(s: &[u8], call: CallShape) -> bool
    requires { (call.place ≤ 20000) × (call.moving ≤ 63) × (call.loads ≤ 256) × (pose_place call.place call.moving ≤ length s.now) }
    ensures { result ≡ call_laid s.now call.place call.moving call.loads }
{
    let function = s[call.place + 6];
    let mode = s[call.place + 7];
    let head = head_laid(s, call.place, 160 + 33 * call.moving + 50 * call.loads, 2);
    let same = size_at(s, call.place + 160) == call.moving;
    let poses = poses_laid(s, call.place, call.moving);
    head & ((1 <= function) & ((function <= 3) & ((mode <= 1) & (same & poses))))
}

// One model and one call, nothing after them.
fn is_laid(s: &[u8]) -> bool
    ensures { result ≡ laid s.now }
{
    let size = s.len();
    if size < 10 {
        return false;
    }
    let n = size_at(s, 6);
    let m = size_at(s, 8);
    if n < 1 {
        return false;
    }
    if 64 < n {
        return false;
    }
    if 63 < m {
        return false;
    }
    let c = 10 + 104 * n + 85 * (n - 1);
    if size < c + 164 {
        return false;
    }
    let k = size_at(s, c + 162);
    if 256 < k {
        return false;
    }
    if size != c + 164 + 33 * m + 50 * k {
        return false;
    }
    let call = CallShape {
        place: c,
        moving: m,
        loads: k,
    };
    model_laid(s, n) & call_laid(s, call)
}

/// Whether the bytes keep the layout of a model and a call.
pub fn check_layout(s: &[u8]) -> Result<(), Refusal>
    ensures { result ≡ layout_checked s.now }
{
    if is_laid(s) {
        Ok(())
    } else {
        Err(Refusal::InvalidRecord)
    }
}
