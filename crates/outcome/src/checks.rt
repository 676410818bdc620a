// The checks of a call, in the order of the rules.
ghost use Rattle.std.specs.Prelude.{true, List, [], ◌≡◌, length};
ghost use Rattle.refusal.specs.Numbers.{number};
ghost use Rattle.loads.specs.Sums.{start_sums, summed};
ghost use Rattle.spatial.specs.declared.Wrench.{Wrench as WrenchRecord};
ghost use Rattle.model.specs.Tables.{view_of};
ghost use Rattle.model.specs.Walk.{Passed};
ghost use Rattle.outcome.specs.Call.{call_of};
ghost use Rattle.outcome.specs.Refusal.{output_checked, start_checked, refusal};

use crate::{Function, JointStates};
use model::bases::check_base;
use model::lists::check_list;
use model::poses::check_positions;
use model::tables::check_model;
use model::{BaseState, Model, Pose, RootMode};
use refusal::Refusal;

// m places in fixed mode, 6 more in floating mode.
fn check_output(mode: RootMode, length: usize, moving: usize) -> Result<(), Refusal>
    ensures { result ≡ output_checked mode moving length }
{
    let fits = match mode {
        RootMode::Fixed => length == moving,
        RootMode::Floating => (6 <= length) && (length - 6 == moving),
    };
    if fits {
        Ok(())
    } else {
        Err(Refusal::WrongLength)
    }
}

// The model, the base state and the positions; where a sweep has passed them, only what it left.
#[tactic(auto, using(crate::proofs::AnswerLaws::start_passed), unfolding(crate::specs::Refusal::start_checked))]
fn check_start(
    passed: bool,
    model: &Model,
    base: &BaseState,
    positions: &[Pose],
) -> Result<(), Refusal>
    requires { passed ≡ true → Passed model.now positions.now }
    ensures { result ≡ start_checked (view_of model.now) base.now positions.now (length positions.now) }
{
    if passed & (positions.len() == model.moving) {
        return check_base(base);
    }
    check_model(model)?;
    check_base(base)?;
    check_positions(model, model.count - 1, positions)
}

/// The first refusal of a call of inverse dynamics, which takes all lists, and loads.
#[tactic(auto, unfolding(crate::specs::Refusal::refusal))]
pub fn check_inverse(
    passed: bool,
    mode: RootMode,
    model: &Model,
    base: &BaseState,
    joints: JointStates,
    loaded: Result<(), Refusal>,
    places: usize,
) -> Result<(), Refusal>
    requires { passed ≡ true → Passed model.now joints.positions.now }
    ensures { (sums : List WrenchRecord) → number result ≡ refusal (call_of Function.InverseDynamics mode model.now base.now joints.entry.positions.now (length joints.entry.positions.now) joints.entry.speeds.now joints.entry.accelerations.now (summed loaded sums)) places }
{
    check_start(passed, model, base, joints.positions)?;
    check_list(joints.speeds, model.moving)?;
    check_list(joints.accelerations, model.moving)?;
    check_output(mode, places, model.moving)?;
    loaded
}

/// The first refusal of a call of gravity, which takes no speeds and no accelerations.
#[tactic(auto, unfolding(crate::specs::Refusal::refusal))]
pub fn check_gravity(
    passed: bool,
    mode: RootMode,
    model: &Model,
    base: &BaseState,
    positions: &[Pose],
    loaded: Result<(), Refusal>,
    places: usize,
) -> Result<(), Refusal>
    requires { passed ≡ true → Passed model.now positions.now }
    ensures { (sums : List WrenchRecord) → number result ≡ refusal (call_of Function.Gravity mode model.now base.now positions.now (length positions.now) [] [] (summed loaded sums)) places }
{
    check_start(passed, model, base, positions)?;
    check_output(mode, places, model.moving).and(loaded)
}

// The velocity product takes no accelerations and no loads.
#[tactic(auto, unfolding(crate::specs::Refusal::refusal))]
pub(crate) fn check_velocity(
    passed: bool,
    mode: RootMode,
    model: &Model,
    base: &BaseState,
    positions: &[Pose],
    speeds: &[f64],
    places: usize,
) -> Result<(), Refusal>
    requires { passed ≡ true → Passed model.now positions.now }
    ensures { number result ≡ refusal (call_of Function.VelocityProduct mode model.now base.now positions.now (length positions.now) speeds.now [] start_sums) places }
{
    check_start(passed, model, base, positions)?;
    check_list(speeds, model.moving)?;
    check_output(mode, places, model.moving)
}
