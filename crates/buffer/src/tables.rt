// Whether a buffer's tables agree: one pass over the 64 places.
ghost use Rattle.std.specs.Prelude.{◌≡◌, ◌<◌, get_or};
ghost use Rattle.buffer.specs.Agree.{no_stored, is_zero_vector, is_cleared, load_agrees, mark_agrees, place_agrees, tables};

use crate::{LoadBuffer, Stored};
use fit::finite::{finite_wrench, is_plus_zero};
use loads::checks::check_links;
use refusal::Refusal;
use spatial::Vector3;

// Three times +0.
#[tactic(auto, unfolding(crate::specs::Agree::is_zero_vector))]
fn is_zero_vector(v: Vector3) -> bool
    ensures { result ≡ is_zero_vector v }
{
    is_plus_zero(v.x) & is_plus_zero(v.y) & is_plus_zero(v.z)
}

// Link 0 and +0.
#[tactic(auto, unfolding(crate::specs::Agree::is_cleared))]
fn is_cleared(s: Stored) -> bool
    ensures { result ≡ is_cleared s }
{
    let w = s.wrench;
    (s.link == 0) & is_zero_vector(w.torque) & is_zero_vector(w.force)
}

// The load at place i: a stored one, whose link's mark is given, or a free place.
#[tactic(auto, unfolding(crate::specs::Agree::load_agrees))]
fn load_agrees(n: usize, m: usize, i: usize, s: Stored, mark: usize) -> bool
    ensures { result ≡ load_agrees n m i s mark }
{
    if i < m {
        finite_wrench(s.wrench) & (s.link < n) & (mark == i)
    } else {
        is_cleared(s)
    }
}

// Link l's mark, and the link of the load at that place.
#[tactic(auto, unfolding(crate::specs::Agree::mark_agrees))]
fn mark_agrees(m: usize, l: usize, mark: usize, link: usize) -> bool
    ensures { result ≡ mark_agrees m l mark link }
{
    (mark == usize::MAX) | ((mark < m) & (link == l))
}

// A link's mark, 0 past the table's end.
fn mark_at(marks: &[usize], link: usize) -> usize
    ensures { result ≡ get_or marks.now link 0 }
{
    if link < marks.len() { marks[link] } else { 0 }
}

// The link of the load at a place, 0 past the table's end.
fn link_at(loads: &[Stored], place: usize) -> usize
    ensures { result ≡ (get_or loads.now place no_stored).link }
{
    if place < loads.len() {
        loads[place].link
    } else {
        0
    }
}

impl LoadBuffer {
    // The load at place i and link i's mark.
    #[tactic(auto, unfolding(crate::specs::Agree::place_agrees))]
    fn place_agrees(&self, i: usize) -> bool
        requires { i < 64 }
        ensures { result ≡ place_agrees self.now i }
    {
        let stored = self.loads[i];
        let mark = self.positions[i];
        load_agrees(
            self.links,
            self.count,
            i,
            stored,
            mark_at(&self.positions, stored.link),
        ) & mark_agrees(self.count, i, mark, link_at(&self.loads, mark))
    }

    /// Accepts a buffer whose tables agree: the counts, then each place and each mark.
    #[tactic(auto, using(crate::proofs::AgreeLaws::corrupt_links, crate::proofs::AgreeLaws::corrupt_count, crate::proofs::AgreeLaws::corrupt_at, crate::proofs::AgreeLaws::sound_all, spatial::proofs::AllLaws::all_start, spatial::proofs::AllLaws::all_more))]
    pub fn check_tables(&self) -> Result<(), Refusal>
        ensures { result ≡ tables self.now }
    {
        if check_links(self.links).is_err() || self.links < self.count {
            return Err(Refusal::CorruptBuffer);
        }
        for i in 0..64 {
            if !self.place_agrees(i) {
                return Err(Refusal::CorruptBuffer);
            }
        }
        Ok(())
    }
}
