//! Rosters, call by call: their sheets, their refusals, and how their models stand.
use crate::piles::entry;
use crate::plans::{placed, planned};
use calendar::Calendar;
use calendars::list::ListCalendar;
use calendars::phase::PhaseCalendar;
use dates::END;
use dates::phase::Phase;
use kinds::entries::Entry;
use kinds::runs::{ByModel, ByRemaining, Run};
use order::Order;
use refusal::{Fault, Layer, Lent, Refusal};
use roster::Roster;
use set::sizes::MODELS;
use standing::{Phase as Doing, Standing};
use std::ops::Range;
use std::test::Fail;

/// A word of a sheet before a call. No sheet has such a word.
pub(crate) const WORD: u64 = u64::MAX;

/// A slot of the scratch before a call.
pub(crate) const BLANK: Run = Run {
    model: 7,
    deadline: 7,
    remaining: 7,
};

/// The words of the two sheets of three models that each need 6 of 10 parts, on two workers.
pub(crate) const FIRST: [u64; 13] = [2, 2, 3, 40, 100, 60, 80, 100, 2, 1, 3, 0, 2];

const SECOND: [u64; 13] = [2, 2, 3, 60, 100, 20, 80, 100, 1, 2, 2, 3, 0];

/// The words of the second sheet where model 2 was withdrawn before.
pub(crate) const PIECES_IDLE: [u64; 13] = [2, 2, 3, 60, 100, 20, 80, 100, 1, 0, 0, 3, 0];

/// Dates of every model each 10 ticks, from 0 on.
pub(crate) const EVERY_TEN: PhaseCalendar = PhaseCalendar {
    phases: [Phase {
        first: 0,
        period: 10,
    }; MODELS],
};

/// The dates of a list, of each model at least 10 ticks apart.
fn listed(entries: &[Entry]) -> ListCalendar<'_> {
    ListCalendar::new(entries, [10; MODELS])
}

/// What an accepted advance answers, and the memory for its sheet afterwards.
type Advanced = ((u32, u32, u32, usize), [u64; 512]);

/// An interval, the first worker, the words of the sheet, and behind them what stood there.
fn sheet(ticks: Range<u32>, first: u32, words: &[u64]) -> Advanced {
    let mut sheet = [WORD; 512];
    for (place, word) in sheet.iter_mut().zip(words) {
        *place = *word;
    }
    ((ticks.start, ticks.end, first, words.len()), sheet)
}

/// Advances a group, with just the memory that it needs.
pub(crate) fn advance<C: Calendar, O: Order<Item = Run>>(
    roster: &mut Roster<'_, C, O>,
    group: u32,
) -> Result<Advanced, Refusal> {
    let mut sheet = [WORD; 512];
    let answer = roster.advance(group, &mut sheet, &mut [BLANK; 64])?;
    Ok((answer, sheet))
}

/// A refusal of the layer that plans are run by.
pub(crate) fn refused(fault: Fault, place: u64) -> Refusal {
    fault.at(Layer::Running, place)
}

/// The standing of a run.
pub(crate) fn live(date: u32, served: u64, lag: i64) -> Standing {
    Standing {
        phase: Doing::Live,
        date,
        served,
        lag,
    }
}

/// The standing of a model without a run.
pub(crate) fn idle(phase: Doing) -> Standing {
    Standing {
        phase,
        date: 0,
        served: 0,
        lag: 0,
    }
}

#[test]
fn two_sheets(rt: HostRuntime) -> Result<(), Fail> {
    let plan = placed(2, 2, 10, &[6; 3])?;
    let mut roster = Roster::open(&plan, &EVERY_TEN, &ByModel)?;
    assert_eq!(rt; advance(&mut roster, 1)?, sheet(0..10, 1, &FIRST));
    assert_eq!(rt; advance(&mut roster, 1)?, sheet(10..20, 1, &SECOND));
    Ok(())
}

/// The first model whose spacing is below its period is named.
#[test]
fn refused_openings(rt: HostRuntime) -> Result<(), Fail> {
    let plan = placed(2, 2, 10, &[6; 3])?;
    let mut spacings = [10; MODELS];
    spacings[3] = 0;
    let entries = [entry(0, 1)];
    let calendar = ListCalendar::new(&entries, spacings);
    assert!(rt; Roster::open(&plan, &calendar, &ByModel).is_ok());
    spacings[1] = 9;
    spacings[2] = 0;
    let calendar = ListCalendar::new(&entries, spacings);
    let refusal = Fault::Spacing.at(Layer::Opening, 2);
    assert_eq!(rt;
        Roster::open(&plan, &calendar, &ByModel).err(),
        Some(refusal)
    );
    Ok(())
}

/// The first fault is named, the memory is as it was, and the roster goes on as if nothing had been asked.
/// The second group has no models.
#[test]
fn refused_advances(rt: HostRuntime) -> Result<(), Fail> {
    let plan = placed(3, 2, 10, &[6; 3])?;
    let (few, short) = (Lent::Sheet.place(), Lent::Scratch.place());
    for (group, words, things, refusal) in [
        (0, 511, 63, refused(Fault::Group, 0)),
        (3, 0, 0, refused(Fault::Group, 3)),
        (1, 511, 63, refused(Fault::Memory, few)),
        (1, 0, 64, refused(Fault::Memory, few)),
        (1, 512, 63, refused(Fault::Memory, short)),
        (1, 512, 0, refused(Fault::Memory, short)),
        (2, 511, 64, refused(Fault::Memory, few)),
        (2, 512, 63, refused(Fault::Memory, short)),
        (2, 512, 64, refused(Fault::Moment, 2)),
    ] {
        let mut roster = Roster::open(&plan, &EVERY_TEN, &ByModel)?;
        let (mut lent, mut scratch) = ([WORD; 512], [BLANK; 64]);
        let answer = roster.advance(group, &mut lent[..words], &mut scratch[..things]);
        assert_eq!(rt; answer, Err(refusal));
        assert_eq!(rt; lent, [WORD; 512]);
        assert_eq!(rt; scratch, [BLANK; 64]);
        assert_eq!(rt; advance(&mut roster, 1)?, sheet(0..10, 1, &FIRST));
        assert_eq!(rt; advance(&mut roster, 1)?, sheet(10..20, 1, &SECOND));
    }
    Ok(())
}

#[test]
fn refused_models(rt: HostRuntime) -> Result<(), Fail> {
    let plan = placed(2, 2, 10, &[6; 3])?;
    let mut roster = Roster::open(&plan, &EVERY_TEN, &ByModel)?;
    for model in [0, 4, u32::MAX] {
        let refusal = refused(Fault::Model, model as u64);
        assert_eq!(rt; roster.withdraw(model), Err(refusal));
        assert_eq!(rt; roster.standing(model), Err(refusal));
    }
    assert_eq!(rt; advance(&mut roster, 1)?, sheet(0..10, 1, &FIRST));
    assert_eq!(rt; roster.withdraw(2), Ok(()));
    assert_eq!(rt; roster.withdraw(2), Err(refused(Fault::Withdrawn, 2)));
    assert_eq!(rt; roster.standing(2), Ok(idle(Doing::Withdrawn)));
    assert_eq!(rt; roster.standing(1), Ok(live(10, 0, 0)));
    assert_eq!(rt; advance(&mut roster, 1)?, sheet(10..20, 1, &PIECES_IDLE));
    Ok(())
}

/// A model is withdrawn in the middle of its run: the pieces of a divided one idle, and others take the turns of a whole one.
#[test]
fn withdrawals(rt: HostRuntime) -> Result<(), Fail> {
    let plan = placed(2, 2, 10, &[6, 6, 6, 2])?;
    let entries = [entry(0, 1), entry(0, 2), entry(0, 3), entry(5, 4)];
    let calendar = listed(&entries);
    let pieces_idle: &[u64] = &[2, 2, 3, 30, 50, 10, 30, 50, 1, 0, 0, 3, 4];
    let turn_taken: &[u64] = &[2, 2, 3, 30, 50, 10, 30, 50, 1, 2, 2, 4, 0];
    for (model, words) in [(2, pieces_idle), (3, turn_taken)] {
        let mut roster = Roster::open(&plan, &calendar, &ByModel)?;
        let together = [2, 2, 2, 20, 50, 40, 50, 2, 1, 3, 2];
        assert_eq!(rt; advance(&mut roster, 1)?, sheet(0..5, 1, &together));
        assert_eq!(rt; roster.standing(2), Ok(live(0, 30, 0)));
        assert_eq!(rt; roster.standing(3), Ok(live(0, 40, 10)));
        roster.withdraw(model)?;
        assert_eq!(rt; roster.standing(model), Ok(idle(Doing::Withdrawn)));
        assert_eq!(rt; advance(&mut roster, 1)?, sheet(5..10, 1, words));
    }
    Ok(())
}

/// An interval ends at a deadline that is no date, and the season with the last run.
#[test]
fn deadlines_that_are_no_dates(rt: HostRuntime) -> Result<(), Fail> {
    let plan = placed(1, 1, 10, &[6, 4])?;
    let entries = [entry(0, 1), entry(4, 2)];
    let calendar = listed(&entries);
    let mut roster = Roster::open(&plan, &calendar, &ByModel)?;
    assert_eq!(rt; advance(&mut roster, 1)?, sheet(0..4, 1, &[1, 1, 40, 1]));
    assert_eq!(rt; roster.standing(1), Ok(live(0, 40, 16)));
    assert_eq!(rt;
        advance(&mut roster, 1)?,
        sheet(4..10, 1, &[1, 2, 20, 60, 1, 2])
    );
    assert_eq!(rt; roster.standing(1), Ok(idle(Doing::Waiting)));
    assert_eq!(rt; roster.standing(2), Ok(live(4, 40, 16)));
    assert_eq!(rt; advance(&mut roster, 1)?, sheet(10..14, 1, &[1, 1, 40, 0]));
    for _ in 0..2 {
        let rest = refused(Fault::Moment, 1);
        assert_eq!(rt; advance(&mut roster, 1).err(), Some(rest));
        assert_eq!(rt; roster.standing(2), Ok(idle(Doing::Waiting)));
    }
    Ok(())
}

/// Two runs have one deadline: the first has the lower number, the second needs fewer parts by then.
#[test]
fn ties(rt: HostRuntime) -> Result<(), Fail> {
    let plan = planned(1, 1, 10, &[2, 6], &[5, 10])?;
    let entries = [entry(0, 2), entry(5, 1)];
    let calendar = listed(&entries);
    let mut roster = Roster::open(&plan, &calendar, &ByModel)?;
    assert_eq!(rt; advance(&mut roster, 1)?, sheet(0..5, 1, &[1, 1, 50, 2]));
    assert_eq!(rt;
        advance(&mut roster, 1)?,
        sheet(5..10, 1, &[1, 3, 20, 30, 50, 1, 2, 0])
    );
    let mut roster = Roster::open(&plan, &calendar, &ByRemaining)?;
    advance(&mut roster, 1)?;
    assert_eq!(rt;
        advance(&mut roster, 1)?,
        sheet(5..10, 1, &[1, 3, 10, 30, 50, 2, 1, 0])
    );
    Ok(())
}

/// A date at the first tick and two at the last, whose deadlines are past the end of all dates.
#[test]
fn dates_at_both_ends(rt: HostRuntime) -> Result<(), Fail> {
    let plan = placed(1, 1, 10, &[6, 4])?;
    let entries = [entry(0, 1), entry(END - 1, 1), entry(END - 1, 2)];
    let calendar = listed(&entries);
    let mut roster = Roster::open(&plan, &calendar, &ByModel)?;
    assert_eq!(rt; roster.standing(1), Ok(live(0, 0, 0)));
    assert_eq!(rt;
        advance(&mut roster, 1)?,
        sheet(0..10, 1, &[1, 2, 60, 100, 1, 0])
    );
    let parts = (END as u64 - 11) * 10;
    assert_eq!(rt;
        advance(&mut roster, 1)?,
        sheet(10..END - 1, 1, &[1, 1, parts, 0])
    );
    assert_eq!(rt; roster.standing(2), Ok(live(END - 1, 0, 0)));
    assert_eq!(rt;
        advance(&mut roster, 1)?,
        sheet(END - 1..END + 9, 1, &[1, 2, 60, 100, 1, 2])
    );
    assert_eq!(rt;
        advance(&mut roster, 1).err(),
        Some(refused(Fault::Moment, 1))
    );
    Ok(())
}

/// Each group has its own present and its own mirror, and is at rest for good once nothing is due.
#[test]
fn groups_by_themselves(rt: HostRuntime) -> Result<(), Fail> {
    let plan = placed(4, 2, 10, &[6; 6])?;
    let entries = [
        entry(0, 1),
        entry(0, 2),
        entry(0, 3),
        entry(3, 4),
        entry(3, 5),
        entry(3, 6),
    ];
    let calendar = listed(&entries);
    let mut roster = Roster::open(&plan, &calendar, &ByModel)?;
    let nothing = [2, 1, 1, 30, 30, 0, 0];
    assert_eq!(rt; advance(&mut roster, 2)?, sheet(0..3, 3, &nothing));
    assert_eq!(rt; advance(&mut roster, 1)?, sheet(0..10, 1, &FIRST));
    let mirrored = [2, 2, 3, 60, 100, 20, 80, 100, 4, 5, 5, 6, 0];
    assert_eq!(rt; advance(&mut roster, 2)?, sheet(3..13, 3, &mirrored));
    for group in [1, 2, 1, 2] {
        let rest = refused(Fault::Moment, group as u64);
        assert_eq!(rt; advance(&mut roster, group).err(), Some(rest));
        for model in 1..7 {
            assert_eq!(rt; roster.standing(model), Ok(idle(Doing::Waiting)));
        }
    }
    Ok(())
}
