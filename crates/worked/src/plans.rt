//! Sets whose weights are given with the grain as period, and their plans.
use placement::place;
use plan::groups::Workers;
use plan::pieces::Pieces;
use plan::plans::Plan;
use refusal::{Fault, Layer, Refusal};
use set::figures::Figures;
use set::sets::Set;
use set::sizes::MODELS;
use std::test::Fail;

/// The plan of models with these costs and periods.
pub(crate) fn planned(
    workers: u32,
    group_size: u32,
    grain: u32,
    costs: &[u32],
    periods: &[u32],
) -> Result<Plan, Refusal> {
    let figures = Figures {
        workers,
        group_size,
        grain,
        costs,
        periods,
    };
    place(&Set::try_from(&figures)?)
}

/// The plan of at most 64 weights.
pub(crate) fn placed(
    workers: u32,
    group_size: u32,
    grain: u32,
    weights: &[u32],
) -> Result<Plan, Refusal> {
    let count = weights.len().min(MODELS);
    planned(
        workers,
        group_size,
        grain,
        weights,
        &[grain; MODELS][..count],
    )
}

#[test]
fn heavy_from_nine_of_twelve(rt: HostRuntime) -> Result<(), Fail> {
    let light = placed(3, 2, 12, &[8])?;
    let heavy = placed(3, 2, 12, &[9])?;
    assert_eq!(rt; light.workers_in(1), Some(Workers { first: 1, last: 2 }));
    assert_eq!(rt; heavy.workers_in(1), Some(Workers { first: 1, last: 1 }));
    assert_eq!(rt; heavy.workers_in(2), Some(Workers { first: 2, last: 3 }));
    assert_eq!(rt; light.group_count(), 2);
    Ok(())
}

#[test]
fn divided_between_neighbours(rt: HostRuntime) -> Result<(), Fail> {
    let plan = placed(3, 2, 12, &[8, 8, 8])?;
    assert_eq!(rt; plan.load_of(1), Some(12));
    assert_eq!(rt; plan.load_of(2), Some(12));
    assert_eq!(rt; plan.load_of(3), Some(0));
    let second = Pieces::Divided {
        worker: 1,
        first: 4,
        second: 4,
    };
    assert_eq!(rt; plan.pieces_of(2), Some(second));
    assert_eq!(rt; plan.group_of(2), Some(1));
    assert_eq!(rt; plan.sizes().workers, 3);
    assert_eq!(rt; plan.all_loads()[1], 12);
    Ok(())
}

#[test]
fn filled_to_the_grain(rt: HostRuntime) -> Result<(), Fail> {
    let plan = placed(2, 2, 10, &[6, 6, 8])?;
    assert_eq!(rt; plan.load_of(1), Some(10));
    assert_eq!(rt; plan.load_of(2), Some(10));
    assert_eq!(rt;
        placed(2, 2, 10, &[6, 6, 9]).err(),
        Some(Fault::Full.at(Layer::Placement, 3))
    );
    Ok(())
}

#[test]
fn whole_on_the_next_worker(rt: HostRuntime) -> Result<(), Fail> {
    let full = placed(2, 2, 10, &[10, 3])?;
    assert_eq!(rt;
        full.pieces_of(2),
        Some(Pieces::Whole { worker: 2, size: 3 })
    );
    let ended = placed(2, 1, 10, &[4, 4, 4])?;
    assert_eq!(rt;
        ended.pieces_of(3),
        Some(Pieces::Whole { worker: 2, size: 4 })
    );
    Ok(())
}

#[test]
fn too_many_heavy_models(rt: HostRuntime) {
    assert_eq!(rt;
        placed(2, 1, 10, &[6, 6, 6]).err(),
        Some(Fault::Heavy.at(Layer::Placement, 3))
    );
    assert_eq!(rt;
        placed(2, 1, 10, &[6, 6, 1]).err(),
        Some(Fault::Heavy.at(Layer::Placement, 2))
    );
    assert_eq!(rt; placed(2, 1, 10, &[6, 6]).err(), None);
}

#[test]
fn numbers_that_a_plan_lacks(rt: HostRuntime) -> Result<(), Fail> {
    let plan = placed(3, 2, 12, &[8, 8])?;
    assert_eq!(rt; plan.pieces_of(0), None);
    assert_eq!(rt; plan.pieces_of(3), None);
    assert_eq!(rt; plan.load_of(4), None);
    assert_eq!(rt; plan.workers_in(0), None);
    assert_eq!(rt; plan.workers_in(3), None);
    assert_eq!(rt; plan.group_of(3), None);
    Ok(())
}
