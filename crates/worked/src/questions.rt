//! What the calls of a roster cost, which no contract says: how often they ask the calendar and the order.
use crate::asked::Asked;
use crate::piles::entry;
use crate::plans::placed;
use crate::rosters::{EVERY_TEN, advance};
use calendars::list::ListCalendar;
use kinds::runs::ByModel;
use roster::Roster;
use std::cell::Cell;
use std::test::Fail;

/// An opening asks each model's spacing and first date, and an advance one date of each model of the group that is not withdrawn.
#[test]
fn of_calendars(rt: HostRuntime) -> Result<(), Fail> {
    let times = Cell::new(0);
    let calendar = Asked {
        inner: EVERY_TEN,
        times: &times,
    };
    let plan = placed(4, 2, 10, &[6; 6])?;
    let mut roster = Roster::open(&plan, &calendar, &ByModel)?;
    assert_eq!(rt; times.replace(0), 12);
    for group in [1, 2, 1] {
        advance(&mut roster, group)?;
        assert_eq!(rt; times.replace(0), 3);
    }
    for (model, left) in [(2, 2), (1, 1)] {
        roster.withdraw(model)?;
        roster.standing(model)?;
        roster.standing(3)?;
        assert_eq!(rt; times.get(), 0);
        advance(&mut roster, 1)?;
        assert_eq!(rt; times.replace(0), left);
    }
    advance(&mut roster, 2)?;
    assert_eq!(rt; times.replace(0), 3);
    Ok(())
}

/// An opening that is refused at the second model asks two spacings.
#[test]
fn of_refused_openings(rt: HostRuntime) -> Result<(), Fail> {
    let times = Cell::new(0);
    let entries = [entry(0, 1)];
    let mut spacings = [10; 64];
    spacings[1] = 9;
    let calendar = Asked {
        inner: ListCalendar::new(&entries, spacings),
        times: &times,
    };
    let plan = placed(2, 2, 10, &[6; 3])?;
    assert!(rt; Roster::open(&plan, &calendar, &ByModel).is_err());
    assert_eq!(rt; times.get(), 2);
    Ok(())
}

/// An order is asked where two undivided runs wait on one worker, and not where one does, whatever pieces stand there.
#[test]
fn of_orders(rt: HostRuntime) -> Result<(), Fail> {
    let times = Cell::new(0);
    let order = Asked {
        inner: ByModel,
        times: &times,
    };
    let plan = placed(2, 2, 10, &[6; 3])?;
    let mut roster = Roster::open(&plan, &EVERY_TEN, &order)?;
    for _ in 0..3 {
        advance(&mut roster, 1)?;
        roster.standing(1)?;
    }
    roster.withdraw(1)?;
    assert_eq!(rt; times.get(), 0);
    let plan = placed(1, 1, 10, &[6, 4])?;
    let mut roster = Roster::open(&plan, &EVERY_TEN, &order)?;
    advance(&mut roster, 1)?;
    assert!(rt; times.replace(0) > 0);
    roster.withdraw(1)?;
    advance(&mut roster, 1)?;
    assert_eq!(rt; times.get(), 0);
    Ok(())
}
