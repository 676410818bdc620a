// Load sums.
ghost use Rattle.std.specs.Prelude.{◌≡◌, ◌≤◌, ◌+◌, ◌*◌, ◌<◌, Ok, length};
ghost use Rattle.loads.specs.Sums.{summed, start_sums, sum_step, load_at, prepared_sums, flat_sums};

use crate::checks::{check_amount, check_link, check_sum, check_table, check_wrench};
use crate::{Load, LoadTable};
use refusal::Refusal;
use spatial::Wrench;
use spatial::constants::zero_wrench;
use spatial::tables::wrench_at;
use spatial::wrenches::add_wrench;

/// +0 at every link.
#[tactic(auto, unfolding(crate::specs::Sums::start_sums))]
pub fn clear(sums: &mut [Wrench; 64])
    ensures { sums.new ≡ start_sums.sums }
{
    *sums = [zero_wrench(); 64];
}

/// Adds a load to its link's sum, for a model with an id and so many links. A load that is refused changes no sum.
#[tactic(auto, using(crate::proofs::CheckLaws::known_small, crate::proofs::SumLaws::step_unknown, crate::proofs::SumLaws::step_infinite, crate::proofs::SumLaws::step_failed, crate::proofs::SumLaws::step_taken))]
pub fn add_load(id: u64, links: usize, load: Load, sums: &mut [Wrench; 64]) -> Result<(), Refusal>
    ensures { summed result sums.new ≡ sum_step id links (summed (Ok tt) sums.old) load }
{
    check_link(id, links, load.id, load.link)?;
    check_wrench(load.wrench)?;
    let total = add_wrench(sums[load.link], load.wrench);
    check_sum(total)?;
    sums[load.link] = total;
    Ok(())
}

/// The sums of a list of loads, up to the first that is refused, in a table whatever stood there.
#[tactic(auto, using(crate::proofs::SumLaws::many_loads, crate::proofs::SumLaws::walk_stops, crate::proofs::SumLaws::walked, crate::proofs::SumLaws::summed_none, crate::proofs::SumLaws::summed_more))]
pub fn sum_loads(
    id: u64,
    links: usize,
    loads: &[Load],
    sums: &mut [Wrench; 64],
) -> Result<(), Refusal>
    ensures { summed result sums.new ≡ prepared_sums id links loads.now }
{
    clear(sums);
    check_amount(loads.len())?;
    for load in loads {
        add_load(id, links, *load, sums)?;
    }
    Ok(())
}

impl<'a> LoadTable<'a> {
    // The load at a place.
    fn load(&self, i: usize) -> Load
        requires { (i < length self.now.ids.now) × (i < length self.now.links.now) × (6 * i + 6 ≤ length self.now.numbers.now) }
        ensures { result ≡ load_at self.now.ids.now self.now.links.now self.now.numbers.now i }
    {
        Load {
            id: self.ids[i],
            link: self.links[i],
            wrench: wrench_at(self.numbers, i),
        }
    }
}

/// The same of a table in three parts.
#[tactic(auto, using(crate::proofs::CheckLaws::right_links, crate::proofs::CheckLaws::right_numbers, crate::proofs::SumLaws::swept_none, crate::proofs::SumLaws::swept_more, crate::proofs::SumLaws::flat_wrong, crate::proofs::SumLaws::flat_many, crate::proofs::SumLaws::flat_stops, crate::proofs::SumLaws::flat_swept))]
pub fn prepare_indexed_loads(
    id: u64,
    links: usize,
    loads: LoadTable,
    sums: &mut [Wrench; 64],
) -> Result<(), Refusal>
    ensures { summed result sums.new ≡ flat_sums id links loads.entry.ids.now loads.entry.links.now loads.entry.numbers.now }
{
    clear(sums);
    check_table(loads.ids.len(), loads.links.len(), loads.numbers.len())?;
    check_amount(loads.ids.len())?;
    for i in 0..loads.ids.len() {
        add_load(id, links, loads.load(i), sums)?;
    }
    Ok(())
}
