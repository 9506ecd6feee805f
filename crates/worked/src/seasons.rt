//! Lists of calls that are performed at once.
use crate::piles::entry;
use crate::plans::placed;
use crate::rosters::{BLANK, EVERY_TEN, FIRST, PIECES_IDLE, WORD, idle, live, refused};
use calendars::list::ListCalendar;
use kinds::runs::ByModel;
use refusal::{Fault, Layer, Lent};
use season::{Answer, Call, Entry, perform};
use standing::Phase as Doing;
use std::test::Fail;

/// The answer of a call that is refused.
fn denied(fault: Fault, place: u64) -> Answer {
    Answer::Refused(refused(fault, place))
}

/// The answer of an advance, whose sheet has 13 words here.
fn advanced(start: u32, end: u32) -> Answer {
    Answer::Advanced {
        start,
        end,
        first: 1,
        written: 13,
    }
}

/// Calls on three models that each need 6 of 10 parts, on two workers: how many words and runs each is lent, and what it is answered.
fn calls() -> [(Call, usize, usize, Answer); 10] {
    let advance = Call::Advance { group: 1 };
    let withdraw = Call::Withdraw { model: 2 };
    let standing = Call::Standing { model: 2 };
    let (few, short) = (Lent::Sheet.place(), Lent::Scratch.place());
    [
        (advance, 511, 64, denied(Fault::Memory, few)),
        (advance, 512, 64, advanced(0, 10)),
        (advance, 600, 0, denied(Fault::Memory, short)),
        (standing, 0, 0, Answer::Stands(live(10, 0, 0))),
        (withdraw, 13, 64, Answer::Withdrew),
        (withdraw, 512, 1, denied(Fault::Withdrawn, 2)),
        (standing, 600, 70, Answer::Stands(idle(Doing::Withdrawn))),
        (advance, 600, 70, advanced(10, 20)),
        (Call::Advance { group: 2 }, 600, 70, denied(Fault::Group, 2)),
        (
            Call::Standing { model: 4 },
            512,
            64,
            denied(Fault::Model, 4),
        ),
    ]
}

/// Whether the memory of a call begins with these words, and is else as it was lent.
fn begins_with(entry: &Entry<'_>, words: &[u64]) -> bool {
    entry.sheet.starts_with(words)
        && entry
            .sheet
            .iter()
            .skip(words.len())
            .all(|word| *word == WORD)
        && (!words.is_empty() || entry.scratch.iter().all(|run| *run == BLANK))
}

/// Each call gets its answer, and only an advance that is accepted writes into its memory.
#[test]
fn mixed_calls(rt: HostRuntime) -> Result<(), Fail> {
    let calls = calls();
    let mut sheets = [[WORD; 600]; 10];
    let mut scratches = [[BLANK; 70]; 10];
    let mut entries = Vec::new(rt.alloc());
    for ((asked, sheet), scratch) in calls.iter().zip(&mut sheets).zip(&mut scratches) {
        let (call, words, runs, _) = *asked;
        let sheet = sheet.get_mut(..words).expect(&rt, "so many words");
        let scratch = scratch.get_mut(..runs).expect(&rt, "so many runs");
        entries.push(Entry::new(call, sheet, scratch))?;
    }
    let plan = placed(2, 2, 10, &[6; 3])?;
    perform(&plan, &EVERY_TEN, &ByModel, &mut entries)?;
    for ((_, _, _, answer), entry) in calls.iter().zip(&entries) {
        assert_eq!(rt; entry.answer, Some(*answer));
        let words: &[u64] = match answer {
            Answer::Advanced { start: 0, .. } => &FIRST,
            Answer::Advanced { .. } => &PIECES_IDLE,
            _ => &[],
        };
        assert!(rt; begins_with(entry, words));
    }
    Ok(())
}

/// An opening that is refused leaves every entry as it was.
#[test]
fn refused_openings(rt: HostRuntime) -> Result<(), Fail> {
    let plan = placed(2, 2, 10, &[6; 3])?;
    let dates = [entry(0, 1)];
    let mut spacings = [10; 64];
    spacings[1] = 9;
    spacings[2] = 9;
    let calendar = ListCalendar::new(&dates, spacings);
    let (mut sheet, mut scratch) = ([WORD; 512], [BLANK; 64]);
    let mut entries = [
        Entry::new(Call::Advance { group: 1 }, &mut sheet, &mut scratch),
        Entry {
            call: Call::Withdraw { model: 1 },
            sheet: &mut [],
            scratch: &mut [],
            answer: Some(Answer::Withdrew),
        },
    ];
    let refusal = Fault::Spacing.at(Layer::Opening, 2);
    assert_eq!(rt;
        perform(&plan, &calendar, &ByModel, &mut entries),
        Err(refusal)
    );
    let [advance, withdraw] = &entries;
    assert_eq!(rt; advance.call, Call::Advance { group: 1 });
    assert_eq!(rt; advance.answer, None);
    assert_eq!(rt; withdraw.call, Call::Withdraw { model: 1 });
    assert_eq!(rt; withdraw.answer, Some(Answer::Withdrew));
    assert_eq!(rt; sheet, [WORD; 512]);
    assert_eq!(rt; scratch, [BLANK; 64]);
    Ok(())
}
