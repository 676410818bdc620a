// The moving numbers: each held by exactly one moving joint.
ghost use Rattle.std.specs.Prelude.{◌≡◌, false, not, ◌<◌, ◌≤◌, get_or};
ghost use Rattle.spatial.specs.All.{all};
ghost use Rattle.model.specs.Tables.{kind_of};
ghost use Rattle.model.specs.View.{moves};
ghost use Rattle.model.specs.Numbers.{number_fits, numbered};
ghost use Rattle.model.specs.Marks.{slot_of, numbering_to};

use crate::Model;

// A number below m has a place of its own; place 63 is for all others.
#[tactic(auto, unfolding(crate::specs::Marks::slot_of))]
pub(crate) fn slot(number: usize, moving: usize) -> usize
    ensures place { result ≡ slot_of number moving }
    ensures small { moving ≤ 63 → result < 64 }
{
    if number < moving {
        return number;
    }
    63
}

// A moving joint's number is below m, and free; a fixed joint's is none.
#[tactic(auto, unfolding(crate::specs::Tables::kind_of))]
fn number_fits(code: u8, number: usize, moving: usize, held: bool) -> bool
    ensures { result ≡ number_fits (moves (kind_of code)) number moving (not held) }
{
    if code == 0 {
        return number == 65535;
    }
    (number < moving) & !held
}

fn all_held(held: [bool; 64], moving: usize) -> bool
    requires { moving ≤ 63 }
    ensures { result ≡ all moving (λ n. get_or held n false) }
{
    let mut good = true;
    for n in 0..moving {
        good = good & held[n];
    }
    good
}

// The moving joints among the first hold 0 to m-1, each exactly once, and the fixed ones none.
pub(crate) fn numbers_good(model: &Model, count: usize) -> bool
    requires { (count ≤ 63) × (model.now.moving ≤ 63) }
    ensures { result ≡ numbered (numbering_to model.now count) }
{
    let moving = model.moving;
    let mut held = [false; 64];
    let mut good = true;
    for j in 0..count {
        let entry = model.joints[j];
        let at = slot(entry.number, moving);
        good = good & number_fits(entry.kind, entry.number, moving, held[at]);
        if entry.kind != 0 {
            held[at] = true;
        }
    }
    let filled = all_held(held, moving);
    good & filled
}
