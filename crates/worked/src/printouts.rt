//! Plans, printed, with the first interval of each group.
use crate::plans::{placed, planned};
use calendar::Calendar;
use calendars::phase::PhaseCalendar;
use dates::END;
use printout::{TEXT_BYTES, print_file, print_plan};
use refusal::{Fault, Layer, Lent};
use set::figures::Figures;
use std::test::Fail;

/// Three models that each need 6 of 10 parts, on two workers.
const THREE: &str = "\
plan 3 2 2 10
load 1 10
load 2 8
piece 1 1 6
piece 2 1 4
piece 2 2 2
piece 3 2 6
group 1 0 10
row 1 40:2 100:1
row 2 60:3 80:0 100:2
end
";

/// Three that each need 8 of 12, on two workers of three: the third has no model.
const REST: &str = "\
plan 3 3 2 12
load 1 12
load 2 12
load 3 0
piece 1 1 8
piece 2 1 4
piece 2 2 4
piece 3 2 8
group 1 0 12
row 1 48:2 144:1
row 2 96:3 144:2
rest 2
end
";

/// What text memory holds before a call.
const LENT: [u8; TEXT_BYTES + 1] = [7; TEXT_BYTES + 1];

#[test]
fn a_plan_and_its_file_have_one_text(rt: HostRuntime) -> Result<(), Fail> {
    let mut text = LENT;
    let len = print_plan(&placed(2, 2, 10, &[6, 6, 6])?, &mut text)?;
    assert_eq!(rt; &text[..len], THREE.as_bytes());
    assert!(rt; text[len..] == LENT[len..]);
    let figures = Figures {
        workers: 2,
        group_size: 2,
        grain: 10,
        costs: &[6, 6, 6],
        periods: &[10, 10, 10],
    };
    let mut file = [0; 40];
    setfile::write(&figures, &mut file)?;
    let mut other = LENT;
    assert_eq!(rt; print_file(&file, &mut other)?, len);
    assert!(rt; other == text);
    Ok(())
}

#[test]
fn a_group_without_models_rests(rt: HostRuntime) -> Result<(), Fail> {
    let mut text = LENT;
    let len = print_plan(&placed(3, 2, 12, &[8, 8, 8])?, &mut text)?;
    assert_eq!(rt; &text[..len], REST.as_bytes());
    Ok(())
}

#[test]
fn a_plan_needs_memory_for_any_text(rt: HostRuntime) -> Result<(), Fail> {
    let plan = placed(1, 1, 10, &[4])?;
    let mut text = LENT;
    assert_eq!(rt;
        print_plan(&plan, &mut text[2..]).err(),
        Some(Fault::Memory.at(Layer::Running, Lent::Text.place()))
    );
    assert!(rt; text == LENT);
    assert!(rt; print_plan(&plan, &mut text[1..]).is_ok());
    Ok(())
}

#[test]
fn a_set_has_dates_of_its_own(rt: HostRuntime) -> Result<(), Fail> {
    let plan = planned(1, 1, 20, &[1, 1], &[10, 4])?;
    let calendar = PhaseCalendar::of_set(&plan.set);
    for (model, spacing, next) in [(1, 10, Some(10)), (2, 4, Some(4)), (3, END, None)] {
        assert_eq!(rt; calendar.spacing(model), spacing);
        assert_eq!(rt; calendar.earliest(model, 0), next.map(|_| 0));
        assert_eq!(rt; calendar.earliest(model, 1), next);
    }
    Ok(())
}
