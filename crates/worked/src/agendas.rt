//! Agendas: their dates, their refusals, and what they cost.
use crate::asked::Asked;
use crate::piles::{entry, phases};
use agenda::fill;
use calendar::Calendar;
use calendars::closure::Closure;
use calendars::delay::Delay;
use calendars::phase::PhaseCalendar;
use dates::END;
use dates::phase::Phase;
use kinds::entries::Entry;
use refusal::{Fault, Layer};
use std::cell::Cell;

#[test]
fn dates_of_a_pile(rt: HostRuntime) {
    let blank = entry(u32::MAX, 0);
    let mut table = [blank; 8];
    let calendar = phases((0, 4), (2, 5), (0, 0));
    let late = Closure::new(Delay::new(calendar, 1), 5..7);
    let dates = [
        entry(1, 1),
        entry(3, 2),
        entry(8, 2),
        entry(9, 1),
        entry(13, 1),
        entry(13, 2),
    ];
    assert_eq!(rt; fill(&late, 0..15, &mut table, &mut [blank; 64]), Ok(6));
    let [a, b, c, d, e, f] = dates;
    assert_eq!(rt; table, [a, b, c, d, e, f, blank, blank]);
    assert_eq!(rt; fill(&late, 13..13, &mut table, &mut [blank; 64]), Ok(0));
    assert_eq!(rt; table, [a, b, c, d, e, f, blank, blank]);
}

#[test]
fn refused_agendas(rt: HostRuntime) {
    let blank = entry(u32::MAX, 0);
    let calendar = phases((0, 4), (2, 5), (END - 1, 1));
    let mut table = [blank; 2];
    let mut scratch = [blank; 64];
    let span = Fault::Span.at(Layer::Agenda, 0);
    let memory = Fault::Memory.at(Layer::Agenda, 2);
    assert_eq!(rt;
        fill(&calendar, 9..8, &mut table, &mut scratch[..63]),
        Err(span)
    );
    assert_eq!(rt;
        fill(&calendar, 0..END + 1, &mut table, &mut scratch[..63]),
        Err(span)
    );
    assert_eq!(rt;
        fill(&calendar, 0..END, &mut table, &mut scratch[..63]),
        Err(memory)
    );
    assert_eq!(rt; table, [blank; 2]);
    assert_eq!(rt; scratch, [blank; 64]);
    let crowded = Fault::Crowded.at(Layer::Agenda, 2);
    assert_eq!(rt;
        fill(&calendar, 0..END, &mut table, &mut scratch),
        Err(crowded)
    );
    assert_eq!(rt; table, [entry(0, 1), entry(2, 2)]);
    assert_eq!(rt;
        fill(&calendar, END - 1..END, &mut table, &mut scratch),
        Ok(1)
    );
    assert_eq!(rt; table, [entry(END - 1, 64), entry(2, 2)]);
    let crowded = Fault::Crowded.at(Layer::Agenda, 0);
    assert_eq!(rt; fill(&calendar, 0..1, &mut [], &mut scratch), Err(crowded));
}

/// One question for each model, and one for each date, however far apart the dates lie.
#[test]
fn what_an_agenda_costs(rt: HostRuntime) {
    let blank = entry(u32::MAX, 0);
    for (end, period, count) in [(4, 1, 256), (1_000, 250, 256), (END, END / 2, 128)] {
        let times = Cell::new(0);
        let phases = [Phase { first: 0, period }; 64];
        let calendar = Asked {
            inner: PhaseCalendar { phases },
            times: &times,
        };
        assert_eq!(rt;
            fill(&calendar, 0..end, &mut [blank; 256], &mut [blank; 64]),
            Ok(count)
        );
        assert_eq!(rt; times.get() as usize, count + 64);
    }
}

/// A table that is too short costs no more than the dates that it has room for.
#[test]
fn what_a_crowded_agenda_costs(rt: HostRuntime) {
    let blank = entry(u32::MAX, 0);
    let times = Cell::new(0);
    let calendar = Asked {
        inner: phases((0, 1), (0, 1), (0, 1)),
        times: &times,
    };
    let answer = fill(&calendar, 0..END, &mut [blank; 10], &mut [blank; 64]);
    assert_eq!(rt; answer, Err(Fault::Crowded.at(Layer::Agenda, 10)));
    assert_eq!(rt; times.get(), 74);
}

/// A delay asks once; a closure asks once, and again where the first answer is closed.
#[test]
fn what_a_layer_costs(rt: HostRuntime) {
    let times = Cell::new(0);
    let calendar = Asked {
        inner: phases((0, 4), (2, 5), (0, 0)),
        times: &times,
    };
    let delay = Delay::new(calendar, 1);
    assert_eq!(rt; (delay.earliest(1, 0), times.replace(0)), (Some(1), 1));
    let closure = Closure::new(calendar, 2..8);
    assert_eq!(rt; (closure.earliest(1, 0), times.replace(0)), (Some(0), 1));
    assert_eq!(rt; (closure.earliest(1, 1), times.replace(0)), (Some(8), 2));
    assert_eq!(rt; (closure.earliest(3, 0), times.replace(0)), (None, 1));
    let pile = Closure::new(&closure, 8..9);
    assert_eq!(rt; (pile.earliest(1, 1), times.replace(0)), (Some(12), 3));
}
