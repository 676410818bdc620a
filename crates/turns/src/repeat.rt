// Each function called so many times over on lent tables; the last turn's answer, an acceptance after none.
use loads::LoadTable;
use loads::sums::prepare_indexed_loads;
use model::tables::check_model;
use model::{BaseState, Model, Pose, RootMode};
use outcome::JointStates;
use outcome::gravity::gravity_lent;
use outcome::inverse::inverse_dynamics_lent;
use outcome::scratch::{DynamicsScratch, GravityScratch};
use outcome::velocity::velocity_product_forces_lent;
use refusal::Refusal;

pub(crate) fn repeat_inverse(
    turns: usize,
    mode: RootMode,
    model: &Model,
    base: &BaseState,
    joints: JointStates,
    loads: LoadTable,
    output: &mut [f64],
) -> Result<(), Refusal> {
    let mut scratch = DynamicsScratch::new();
    let mut answer = Ok(());
    for _ in 0..turns {
        let loaded = prepare_indexed_loads(0, model.count, loads, &mut scratch.sums);
        answer = inverse_dynamics_lent(mode, model, base, joints, loaded, &mut scratch, output);
    }
    answer
}

pub(crate) fn repeat_gravity(
    turns: usize,
    mode: RootMode,
    model: &Model,
    base: &BaseState,
    positions: &[Pose],
    loads: LoadTable,
    output: &mut [f64],
) -> Result<(), Refusal> {
    let mut scratch = GravityScratch::new();
    let mut answer = Ok(());
    for _ in 0..turns {
        let loaded = prepare_indexed_loads(0, model.count, loads, &mut scratch.sums);
        answer = gravity_lent(mode, model, base, positions, loaded, &mut scratch, output);
    }
    answer
}

pub(crate) fn repeat_velocity(
    turns: usize,
    mode: RootMode,
    model: &Model,
    base: &BaseState,
    positions: &[Pose],
    speeds: &[f64],
    output: &mut [f64],
) -> Result<(), Refusal> {
    let mut scratch = DynamicsScratch::new();
    let mut answer = Ok(());
    for _ in 0..turns {
        answer = velocity_product_forces_lent(
            mode,
            model,
            base,
            positions,
            speeds,
            &mut scratch,
            output,
        );
    }
    answer
}

pub(crate) fn repeat_check(turns: usize, model: &Model) -> Result<(), Refusal> {
    let mut answer = Ok(());
    for _ in 0..turns {
        answer = check_model(model);
    }
    answer
}
