// The check of a model.
ghost use Rattle.std.specs.Prelude.{◌≡◌};
ghost use Rattle.model.specs.Tables.{view_of};
ghost use Rattle.model.specs.Good.{counts_fit, model_checked};

use crate::Model;
use crate::joints::joints_good;
use crate::links::links_good;
use crate::numbers::numbers_good;
use refusal::Refusal;

/// Whether there are 1 to 64 links, and no more moving joints than joints.
#[tactic(auto, unfolding(crate::specs::Good::counts_fit))]
pub fn counts_fit(count: usize, moving: usize) -> bool
    ensures { result ≡ counts_fit count moving }
{
    if count < 1 {
        return false;
    }
    (count <= 64) & (moving <= count - 1)
}

/// Refuses a model that is not good.
#[tactic(auto, using(crate::proofs::GoodLaws::counts, crate::proofs::GoodLaws::refused, crate::proofs::GoodLaws::told_good, crate::proofs::GoodLaws::told_bad))]
pub fn check_model(model: &Model) -> Result<(), Refusal>
    ensures { result ≡ model_checked (view_of model.now) }
{
    if !counts_fit(model.count, model.moving) {
        return Err(Refusal::InvalidModel);
    }
    let last = model.count - 1;
    let links_fine = links_good(model, model.count);
    let joints_fine = joints_good(model, last);
    let numbers_fine = numbers_good(model, last);
    if links_fine & (joints_fine & numbers_fine) {
        Ok(())
    } else {
        Err(Refusal::InvalidModel)
    }
}
