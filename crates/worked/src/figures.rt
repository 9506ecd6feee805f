//! Figures that cannot come from a file, and the weights of a set.
use refusal::{Fault, Layer, Refusal};
use set::figures::Figures;
use set::sets::Set;
use std::test::Fail;

/// The set of two workers in one group, at a grain of 10.
fn checked<'a>(costs: &'a [u32], periods: &'a [u32]) -> Result<Set, Refusal> {
    let figures = Figures {
        workers: 2,
        group_size: 2,
        grain: 10,
        costs,
        periods,
    };
    figures.check()
}

#[test]
fn numbers_of_costs_and_periods(rt: HostRuntime) {
    // the place as callers see it
    let models = Some(Fault::Size.at(Layer::Set, 1));
    assert_eq!(rt; checked(&[1, 1], &[10]).err(), models);
    assert_eq!(rt; checked(&[], &[10]).err(), models);
    assert_eq!(rt; checked(&[], &[]).err(), models);
    assert_eq!(rt; checked(&[1; 65], &[10; 65]).err(), models);
    assert_eq!(rt; checked(&[1; 64], &[10; 64]).err(), None);
}

#[test]
fn weights_and_runs(rt: HostRuntime) -> Result<(), Fail> {
    let set = checked(&[2, 1], &[5, 2])?;
    assert_eq!(rt; set.weight(1), Some(4));
    assert_eq!(rt; set.run_parts(1), Some(20));
    assert_eq!(rt; set.weight(2), Some(5));
    assert_eq!(rt; set.slot(2), Some(1));
    assert_eq!(rt; set.weight(0), None);
    assert_eq!(rt; set.run_parts(3), None);
    Ok(())
}
