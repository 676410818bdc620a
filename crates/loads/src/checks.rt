// The checks of a load and of a list of loads: what each accepts, and its refusal.
ghost use Rattle.std.specs.Prelude.{◌≡◌};
ghost use Rattle.loads.specs.Checks.{links_checked, link_checked, wrench_checked, sum_checked, table_checked, list_checked, amount_checked};

use fit::finite::finite_wrench;
use refusal::Refusal;
use spatial::Wrench;

/// Accepts a link count of 1 to 64.
#[tactic(auto, unfolding(crate::specs::Checks::links_checked))]
pub fn check_links(n: usize) -> Result<(), Refusal>
    ensures { result ≡ links_checked n }
{
    if 1 <= n && n <= 64 {
        Ok(())
    } else {
        Err(Refusal::InvalidModel)
    }
}

/// Accepts an id and a link of a model with the id `own` and so many links, of which 64 count.
#[tactic(auto, unfolding(crate::specs::Checks::link_checked))]
pub fn check_link(own: u64, links: usize, id: u64, link: usize) -> Result<(), Refusal>
    ensures { result ≡ link_checked own links id link }
{
    if id == own && link < links && link < 64 {
        Ok(())
    } else {
        Err(Refusal::InvalidLinkId)
    }
}

/// Accepts a load's wrench whose six numbers are finite.
#[tactic(auto, unfolding(crate::specs::Checks::wrench_checked))]
pub fn check_wrench(wrench: Wrench) -> Result<(), Refusal>
    ensures { result ≡ wrench_checked wrench }
{
    if finite_wrench(wrench) {
        Ok(())
    } else {
        Err(Refusal::NonFiniteInput)
    }
}

/// Accepts a load sum whose six numbers are finite.
#[tactic(auto, unfolding(crate::specs::Checks::sum_checked))]
pub fn check_sum(sum: Wrench) -> Result<(), Refusal>
    ensures { result ≡ sum_checked sum }
{
    if finite_wrench(sum) {
        Ok(())
    } else {
        Err(Refusal::NonFiniteLoadSum)
    }
}

/// Accepts a load table in three parts: as many links as ids, and six numbers each.
#[tactic(auto, unfolding(crate::specs::Checks::table_checked))]
pub fn check_table(ids: usize, links: usize, numbers: usize) -> Result<(), Refusal>
    ensures { result ≡ table_checked ids links numbers }
{
    if links == ids && numbers / 6 == ids && numbers % 6 == 0 {
        Ok(())
    } else {
        Err(Refusal::WrongLength)
    }
}

/// Accepts a table with a place for each of so many loads.
#[tactic(auto, unfolding(crate::specs::Checks::list_checked))]
pub fn check_list(count: usize, places: usize) -> Result<(), Refusal>
    ensures { result ≡ list_checked count places }
{
    if count <= places {
        Ok(())
    } else {
        Err(Refusal::WrongLength)
    }
}

/// Accepts at most 256 loads.
#[tactic(auto, unfolding(crate::specs::Checks::amount_checked))]
pub fn check_amount(n: usize) -> Result<(), Refusal>
    ensures { result ≡ amount_checked n }
{
    if n <= 256 {
        Ok(())
    } else {
        Err(Refusal::TooManyLoads)
    }
}
