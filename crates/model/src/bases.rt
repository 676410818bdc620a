// The check of a base state.
ghost use Rattle.std.specs.Prelude.{◌≡◌};
ghost use Rattle.model.specs.Bases.{good_base, base_checked};

use crate::BaseState;
use fit::finite::{finite_frame, finite_twist};
use fit::unit::is_unit_quaternion;
use refusal::Refusal;

#[tactic(auto, unfolding(crate::specs::Bases::good_base))]
fn base_good(base: &BaseState) -> bool
    ensures { result ≡ good_base base.now }
{
    let finite = finite_frame(base.frame)
        & finite_twist(base.velocity)
        & finite_twist(base.acceleration);
    finite & is_unit_quaternion(base.frame.rotation)
}

/// Refuses a base state that is not good. All of it is checked in either mode.
pub fn check_base(base: &BaseState) -> Result<(), Refusal>
    ensures { result ≡ base_checked base.now }
{
    if base_good(base) {
        Ok(())
    } else {
        Err(Refusal::InvalidBaseState)
    }
}
