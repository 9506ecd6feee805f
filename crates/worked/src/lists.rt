//! What a list costs, which no contract says. What is read of a slice cannot be counted, so the list is so long that
//! a body that walks it for each entry, or for each question, does not end in the time that a test has.
use crate::piles::entry;
use calendar::Calendar;
use calendars::list::{ListCalendar, check};
use kinds::entries::Entry;
use std::alloc::{AllocError, Global};
use std::test::Fail;

/// How many entries the list has, one for each tick.
const COUNT: u32 = 2_000_000;

/// The first entry is of model 1, all others are of model 2.
fn long_list(heap: Global) -> Result<Vec<Entry>, AllocError> {
    let mut entries = Vec::with_capacity(heap, COUNT as usize)?;
    entries.push(entry(0, 1))?;
    for tick in 1..COUNT {
        entries.push(entry(tick, 2))?;
    }
    Ok(entries)
}

#[test]
fn what_a_check_costs(rt: HostRuntime) -> Result<(), Fail> {
    let entries = long_list(rt.alloc())?;
    assert_eq!(rt; check(entries.as_slice(), &[1; 64]), Ok(()));
    Ok(())
}

/// A model with no date so late is answered at once, and the first entry at or after a tick is not walked to.
#[test]
fn what_an_answer_costs(rt: HostRuntime) -> Result<(), Fail> {
    let entries = long_list(rt.alloc())?;
    let calendar = ListCalendar::new(entries.as_slice(), [1; 64]);
    for tick in 1..COUNT {
        assert_eq!(rt; calendar.earliest(1, tick), None);
        assert_eq!(rt; calendar.earliest(2, tick), Some(tick));
        assert_eq!(rt; calendar.earliest(3, tick), None);
    }
    Ok(())
}
