//! Calendars at their edges, and piles of them.
use calendar::Calendar;
use calendars::closure::Closure;
use calendars::delay::Delay;
use calendars::list::{ListCalendar, check};
use calendars::phase::PhaseCalendar;
use dates::END;
use dates::phase::Phase;
use kinds::entries::Entry;
use refusal::{Fault, Layer};

/// Models 1, 2 and 64 have these phases, and the others none.
pub(crate) fn phases(one: (u32, u32), two: (u32, u32), last: (u32, u32)) -> PhaseCalendar {
    let mut phases = [Phase::none(); 64];
    for (slot, (first, period)) in [(0, one), (1, two), (63, last)] {
        phases[slot] = Phase { first, period };
    }
    PhaseCalendar { phases }
}

pub(crate) fn entry(tick: u32, model: u32) -> Entry {
    Entry { tick, model }
}

#[test]
fn phases_at_the_edges(rt: HostRuntime) {
    let calendar = phases((0, 1), (END - 1, u32::MAX), (END, 5));
    assert_eq!(rt; calendar.earliest(1, 0), Some(0));
    assert_eq!(rt; calendar.earliest(1, END - 1), Some(END - 1));
    assert_eq!(rt; calendar.earliest(1, END), None);
    assert_eq!(rt; calendar.earliest(1, u32::MAX), None);
    assert_eq!(rt; calendar.earliest(2, 0), Some(END - 1));
    assert_eq!(rt; calendar.earliest(2, END), None);
    assert_eq!(rt; calendar.spacing(2), u32::MAX);
    assert_eq!(rt; calendar.earliest(64, 0), None);
    assert_eq!(rt; calendar.spacing(64), 5);
    for model in [0, 3, 65, u32::MAX] {
        assert_eq!(rt; calendar.earliest(model, 0), None);
        assert_eq!(rt; calendar.spacing(model), END);
    }
}

#[test]
fn lists_with_each_fault(rt: HostRuntime) {
    let mut spacings = [0; 64];
    spacings[0] = 10;
    let sound = [entry(0, 1), entry(3, 2), entry(3, 2), entry(10, 1)];
    assert_eq!(rt; check(&sound, &spacings), Ok(()));
    for wrong in [
        entry(END, 3),
        entry(20, 0),
        entry(20, 65),
        entry(9, 2),
        entry(19, 1),
    ] {
        let [a, b, c, d] = sound;
        let entries = [a, b, c, d, wrong, entry(40, 5)];
        let refusal = Fault::Misfit.at(Layer::Calendar, 4);
        assert_eq!(rt; check(&entries, &spacings), Err(refusal));
        let calendar = ListCalendar::new(&entries, spacings);
        assert_eq!(rt; calendar.earliest(1, 1), Some(10));
        assert_eq!(rt; calendar.earliest(2, 3), Some(3));
        assert_eq!(rt; calendar.earliest(2, 4), None);
        assert_eq!(rt; calendar.earliest(wrong.model, wrong.tick), None);
        assert_eq!(rt; calendar.earliest(5, 0), None);
        assert_eq!(rt; calendar.spacing(1), 10);
        assert_eq!(rt; calendar.spacing(0), END);
    }
}

#[test]
fn delays_at_the_edges(rt: HostRuntime) {
    let calendar = phases((0, 3), (7, u32::MAX), (END - 1, 1));
    assert_eq!(rt; Delay::new(&calendar, 0).earliest(64, 9), Some(END - 1));
    assert_eq!(rt; Delay::new(&calendar, 1).earliest(64, 9), None);
    assert_eq!(rt;
        Delay::new(&calendar, END - 1).earliest(1, 0),
        Some(END - 1)
    );
    assert_eq!(rt; Delay::new(&calendar, END - 1).earliest(2, 0), None);
    for ticks in [END, u32::MAX] {
        let delay = Delay::new(&calendar, ticks);
        assert_eq!(rt; delay.earliest(1, 0), None);
        assert_eq!(rt; delay.spacing(1), 3);
        assert_eq!(rt; delay.spacing(0), END);
    }
}

#[test]
fn closures_that_touch(rt: HostRuntime) {
    let calendar = phases((0, 1), (0, 4), (END - 1, 1));
    let closed = Closure::new(Closure::new(&calendar, 5..10), 10..20);
    assert_eq!(rt; closed.earliest(1, 4), Some(4));
    assert_eq!(rt; closed.earliest(1, 5), Some(20));
    assert_eq!(rt; closed.earliest(2, 5), Some(20));
    assert_eq!(rt; closed.earliest(2, 21), Some(24));
    assert_eq!(rt; Closure::new(&calendar, 9..9).earliest(1, 9), Some(9));
    assert_eq!(rt; Closure::new(&calendar, 9..3).earliest(1, 5), Some(5));
    assert_eq!(rt;
        Closure::new(&calendar, 0..END - 1).earliest(64, 0),
        Some(END - 1)
    );
    for end in [END, u32::MAX] {
        assert_eq!(rt; Closure::new(&calendar, 1..end).earliest(1, 1), None);
        assert_eq!(rt; Closure::new(&calendar, 1..end).spacing(2), 4);
    }
}

/// The order of the layers matters: the same closure drops other dates.
#[test]
fn piles(rt: HostRuntime) {
    let list = [entry(0, 2), entry(6, 1), entry(6, 2)];
    let list = ListCalendar::new(&list, [6; 64]);
    let late = Closure::new(Delay::new(Delay::new(&list, 3), 1), 0..4);
    assert_eq!(rt;
        [late.earliest(1, 0), late.earliest(2, 0)],
        [Some(10), Some(4)]
    );
    let early = Delay::new(Closure::new(Delay::new(list, 3), 0..4), 1);
    assert_eq!(rt;
        [early.earliest(1, 0), early.earliest(2, 0)],
        [Some(10), Some(10)]
    );
    let all = Delay::new(Closure::new(Delay::new(&list, 3), 9..10), 1);
    assert_eq!(rt; [all.earliest(1, 0), all.earliest(2, 0)], [None, Some(4)]);
    assert_eq!(rt; all.spacing(64), 6);
}
