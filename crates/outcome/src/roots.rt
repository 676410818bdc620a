// The motion that a call gives its root, and the number of its answer.
ghost use Rattle.std.specs.Prelude.{◌≡◌};
ghost use Rattle.refusal.specs.Numbers.{unless};
ghost use Rattle.spatial.specs.Constants.{standard_gravity, zero_twist, zero_vector};
ghost use Rattle.fit.specs.Finite.{all_finite};
ghost use Rattle.dynamics.specs.Motions.{root_motion};
ghost use Rattle.outcome.specs.Figures.{in_mode};

use dynamics::Motion;
use dynamics::motions::root_motion;
use fit::finite::finite_numbers;
use model::{BaseState, RootMode};
use refusal::Refusal;
use spatial::Twist;
use spatial::constants::{standard_gravity, zero_twist, zero_vector};

// Fixed mode uses +0.
fn in_mode(mode: RootMode, twist: Twist) -> Twist
    ensures { result ≡ in_mode mode twist }
{
    match mode {
        RootMode::Fixed => zero_twist(),
        RootMode::Floating => twist,
    }
}

pub(crate) fn inverse_root(mode: RootMode, base: &BaseState) -> Motion
    ensures { result ≡ root_motion base.now.frame.rotation (in_mode mode base.now.velocity) (in_mode mode base.now.acceleration) standard_gravity }
{
    let velocity = in_mode(mode, base.velocity);
    let acceleration = in_mode(mode, base.acceleration);
    root_motion(
        base.frame.rotation,
        velocity,
        acceleration,
        standard_gravity(),
    )
}

// Gravity and the base acceleration are +0.
pub(crate) fn velocity_root(mode: RootMode, base: &BaseState) -> Motion
    ensures { result ≡ root_motion base.now.frame.rotation (in_mode mode base.now.velocity) zero_twist zero_vector }
{
    let velocity = in_mode(mode, base.velocity);
    root_motion(base.frame.rotation, velocity, zero_twist(), zero_vector())
}

// 8 where a figure is not finite.
pub(crate) fn check_figures(output: &[f64]) -> Result<(), Refusal>
    ensures { result ≡ unless (all_finite output.now) Refusal.NumericalFailure }
{
    if finite_numbers(output) {
        Ok(())
    } else {
        Err(Refusal::NumericalFailure)
    }
}
