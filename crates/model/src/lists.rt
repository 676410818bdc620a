// The check of speeds and of accelerations.
ghost use Rattle.std.specs.Prelude.{◌≡◌};
ghost use Rattle.model.specs.Lists.{list_checked};

use fit::finite::finite_numbers;
use refusal::Refusal;

/// Refuses a list of speeds or of accelerations that has not m numbers, or one that is not finite.
#[tactic(auto, unfolding(crate::specs::Lists::list_checked))]
pub fn check_list(list: &[f64], m: usize) -> Result<(), Refusal>
    ensures { result ≡ list_checked list.now m }
{
    if list.len() != m {
        return Err(Refusal::WrongLength);
    }
    if finite_numbers(list) {
        Ok(())
    } else {
        Err(Refusal::NonFiniteInput)
    }
}
