// The calls on a load buffer, each for every buffer; a refused one changes nothing.
ghost use Rattle.std.specs.Prelude.{◌≡◌, ◌≤◌, length, IfOk, OnOk};
ghost use Rattle.refusal.specs.Numbers.{number};
ghost use Rattle.loads.specs.Checks.{accepted};
ghost use Rattle.buffer.specs.Agree.{cleared};
ghost use Rattle.buffer.specs.Calls.{Ready, empty_buffer, new_of, put_of, set_number, set_of, added_of, add_number, add_of, drop_of, remove_number, remove_of, clear_of, counted, len_of, emptied, is_empty_of, list_number, listed_in, blank_table, list_of, gathered};

use crate::{Listing, LoadBuffer, Stored};
use loads::Load;
use loads::checks::{check_link, check_links, check_list, check_sum, check_wrench};
use refusal::Refusal;
use spatial::Wrench;
use spatial::constants::zero_wrench;
use spatial::wrenches::add_wrench;

// A free place: link 0 and +0.
fn cleared_place() -> Stored
    ensures { result ≡ cleared }
{
    Stored {
        link: 0,
        wrench: zero_wrench(),
    }
}

// A table of 64 loads of id 0, link 0 and +0.
#[tactic(auto, unfolding(crate::specs::Calls::blank_table))]
fn blank_table() -> [Load; 64]
    ensures { result ≡ blank_table }
{
    let load = Load {
        id: 0,
        link: 0,
        wrench: zero_wrench(),
    };
    [load; 64]
}

impl LoadBuffer {
    /// A buffer with no load, of any link count; where that is not 1 to 64, which `new` refuses, every call on it answers 11.
    #[tactic(auto, unfolding(crate::specs::Calls::empty_buffer))]
    pub fn empty(id: u64, links: usize) -> LoadBuffer
        ensures { result ≡ empty_buffer id links }
    {
        LoadBuffer {
            id,
            links,
            count: 0,
            positions: [usize::MAX; 64],
            loads: [cleared_place(); 64],
        }
    }

    /// A buffer for a model with an id and so many links, 1 to 64.
    #[tactic(auto, unfolding(crate::specs::Calls::new_of))]
    pub fn new(id: u64, links: usize) -> Result<LoadBuffer, Refusal>
        ensures answer { number result ≡ (new_of id links).number }
        ensures made { IfOk result (λ b. b ≡ (new_of id links).buffer) }
    {
        check_links(links)?;
        Ok(LoadBuffer::empty(id, links))
    }

    // Accepts an id and a link of the buffer's, in a buffer whose tables agree.
    #[tactic(auto, using(loads::proofs::CheckLaws::stands, loads::proofs::CheckLaws::known_link, loads::proofs::CheckLaws::known_small))]
    fn check_link(&self, id: u64, link: usize) -> Result<(), Refusal>
        ensures answer { number result ≡ remove_number self.now id link }
        ensures ready { OnOk result (Ready self.now link) }
    {
        self.check_tables()
            .and_then(|()| check_link(self.id, self.links, id, link))
    }

    // Accepts a finite load of such an id and link.
    #[tactic(auto, using(loads::proofs::CheckLaws::stands))]
    fn check_load(&self, load: Load) -> Result<(), Refusal>
        ensures answer { number result ≡ set_number self.now load.id load.link load.wrench }
        ensures ready { OnOk result (Ready self.now load.link) }
    {
        self.check_link(load.id, load.link)?;
        check_wrench(load.wrench)
    }

    // Replaces a link's load, or appends one.
    #[tactic(auto, using(crate::proofs::CallLaws::ready_room, crate::proofs::CallLaws::ready_mark), unfolding(crate::specs::Calls::put_of))]
    fn put(&mut self, link: usize, wrench: Wrench)
        requires { Ready self.old link }
        ensures { self.new ≡ put_of self.old link wrench }
    {
        let place = self.positions[link];
        let stored = Stored { link, wrench };
        if place == usize::MAX {
            self.positions[link] = self.count;
            self.loads[self.count] = stored;
            self.count += 1;
        } else {
            self.loads[place] = stored;
        }
    }

    /// Replaces a link's load, or stores it where the link has none.
    #[tactic(auto, using(loads::proofs::CheckLaws::left_alone), unfolding(crate::specs::Calls::set_of))]
    pub fn set(&mut self, id: u64, link: usize, wrench: Wrench) -> Result<(), Refusal>
        ensures answer { number result ≡ set_number self.old id link wrench }
        ensures after { self.new ≡ (set_of self.old id link wrench).buffer }
    {
        self.check_load(Load { id, link, wrench })?;
        self.put(link, wrench);
        Ok(())
    }

    // A wrench on top of what a link has: nothing, or the old one.
    #[tactic(auto, using(crate::proofs::CallLaws::ready_mark), unfolding(crate::specs::Calls::added_of))]
    fn added(&self, link: usize, wrench: Wrench) -> Wrench
        requires { Ready self.now link }
        ensures { result ≡ added_of self.now link wrench }
    {
        let place = self.positions[link];
        if place == usize::MAX {
            wrench
        } else {
            add_wrench(self.loads[place].wrench, wrench)
        }
    }

    /// Adds to a link's load, or stores the wrench itself where the link has none.
    #[tactic(auto, using(loads::proofs::CheckLaws::stands, loads::proofs::CheckLaws::left_alone), unfolding(crate::specs::Calls::add_of))]
    pub fn add(&mut self, id: u64, link: usize, wrench: Wrench) -> Result<(), Refusal>
        ensures answer { number result ≡ add_number self.old id link wrench }
        ensures after { self.new ≡ (add_of self.old id link wrench).buffer }
    {
        let more = Load { id, link, wrench };
        self.check_load(more)?;
        let sum = self.added(link, wrench);
        check_sum(sum)?;
        self.put(link, sum);
        Ok(())
    }

    // Takes a link's load out; the last one moves into the gap.
    #[tactic(auto, using(crate::proofs::CallLaws::ready_mark, crate::proofs::CallLaws::ready_last), unfolding(crate::specs::Calls::drop_of))]
    fn take_out(&mut self, link: usize)
        requires { Ready self.old link }
        ensures { self.new ≡ drop_of self.old link }
    {
        let place = self.positions[link];
        if place == usize::MAX {
            return;
        }
        let last = self.count - 1;
        let moved = self.loads[last];
        self.positions[moved.link] = place;
        self.positions[link] = usize::MAX;
        self.loads[place] = moved;
        self.loads[last] = cleared_place();
        self.count = last;
    }

    /// Removes a link's load, if it has one.
    #[tactic(auto, using(loads::proofs::CheckLaws::left_alone), unfolding(crate::specs::Calls::remove_of))]
    pub fn remove(&mut self, id: u64, link: usize) -> Result<(), Refusal>
        ensures answer { number result ≡ remove_number self.old id link }
        ensures after { self.new ≡ (remove_of self.old id link).buffer }
    {
        self.check_link(id, link)?;
        self.take_out(link);
        Ok(())
    }

    /// Removes every load.
    #[tactic(auto, using(loads::proofs::CheckLaws::left_alone), unfolding(crate::specs::Calls::clear_of))]
    pub fn clear(&mut self) -> Result<(), Refusal>
        ensures answer { number result ≡ (clear_of self.old).number }
        ensures after { self.new ≡ (clear_of self.old).buffer }
    {
        self.check_tables()?;
        *self = LoadBuffer::empty(self.id, self.links);
        Ok(())
    }

    /// How many loads a buffer holds.
    #[tactic(auto, using(loads::proofs::CheckLaws::left_alone), unfolding(crate::specs::Calls::len_of))]
    pub fn len(&self) -> Result<usize, Refusal>
        ensures { counted result ≡ len_of self.now }
    {
        self.check_tables().map(|()| self.count)
    }

    /// Whether a buffer holds no load.
    #[tactic(auto, using(loads::proofs::CheckLaws::left_alone), unfolding(crate::specs::Calls::is_empty_of))]
    pub fn is_empty(&self) -> Result<bool, Refusal>
        ensures { emptied result ≡ is_empty_of self.now }
    {
        self.check_tables().map(|()| self.count == 0)
    }

    // Copies the loads, in stored order, to the front of a table.
    #[tactic(auto, using(crate::proofs::CallLaws::copied_more), unfolding(crate::specs::Calls::listed_in))]
    fn copy_loads(&self, table: &mut [Load])
        requires room { self.now.count ≤ length table.old }
        requires small { self.now.count ≤ 64 }
        ensures { table.new ≡ listed_in self.now table.old }
    {
        for place in 0..self.count {
            let stored = self.loads[place];
            table[place] = Load {
                id: self.id,
                link: stored.link,
                wrench: stored.wrench,
            };
        }
    }

    /// Copies the loads, in stored order, into the front of a lent table, each with the buffer's id.
    #[tactic(auto, using(loads::proofs::CheckLaws::stands, loads::proofs::CheckLaws::left_alone, loads::proofs::CheckLaws::right_list, crate::proofs::CallLaws::count_small))]
    pub fn list(&self, table: &mut [Load]) -> Result<(), Refusal>
        ensures answer { number result ≡ list_number self.now (length table.old) }
        ensures after { table.new ≡ accepted (list_number self.now (length table.old)) (listed_in self.now table.old) table.old }
    {
        self.check_tables()
            .and_then(|()| check_list(self.count, table.len()))?;
        self.copy_loads(table);
        Ok(())
    }

    /// The loads in stored order by value, for a table of so many places.
    #[tactic(auto, using(loads::proofs::CheckLaws::stands, loads::proofs::CheckLaws::left_alone, loads::proofs::CheckLaws::right_list, crate::proofs::CallLaws::count_small), unfolding(crate::specs::Calls::list_of))]
    pub fn listed(&self, places: usize) -> Result<Listing, Refusal>
        ensures { gathered result ≡ list_of self.now places }
    {
        self.check_tables()
            .and_then(|()| check_list(self.count, places))?;
        let mut loads = blank_table();
        self.copy_loads(&mut loads);
        Ok(Listing {
            count: self.count,
            loads,
        })
    }
}
