//! The lines of the groups: what a roster that is newly opened answers to one advance of each.
ghost use Rattle.std.specs.Prelude.{◌≡◌, length};
ghost use Rattle.book.specs.Reading.{rows_in, row_from};
ghost use Rattle.printout.specs.Pages.{Fits, HasRoom, Appends};
ghost use Rattle.printout.specs.Texts.{span_text, row_text, rows_text};
ghost use Rattle.printout.specs.Showing.{given_text, AreSheetWords, IsWhole, ShowsGroups};

use crate::page::Page;
use calendars::phase::PhaseCalendar;
use kinds::runs::{ByModel, Run};
use plan::plans::Plan;
use refusal::Refusal;
use roster::{Roster, SCRATCH_RUNS, SHEET_WORDS};

/// What fills scratch before its first use.
const NO_RUN: Run = Run {
    model: 0,
    deadline: 0,
    remaining: 0,
};

/// The lines of all groups. The spacings of the calendar are the periods of the set, so the roster opens.
pub(crate) fn group_lines(page: &mut Page<'_>, plan: &Plan)
    requires { HasRoom page.old 7062 }
    ensures { ShowsGroups plan.now page.old page.new }
{
    let calendar = PhaseCalendar::of_set(&plan.set);
    let mut roster = Roster::open(plan, &calendar, &ByModel).unwrap();
    let mut sheet = [0; SHEET_WORDS];
    let mut scratch = [NO_RUN; SCRATCH_RUNS];
    for group in 1..=plan.group_count() {
        let answer = roster.advance(group, &mut sheet, &mut scratch);
        answer_lines(page, group, answer, &sheet);
    }
}

/// The lines of a group, by the answer to its advance and the words of the sheet.
fn answer_lines(
    page: &mut Page<'_>,
    group: u32,
    answer: Result<(u32, u32, u32, usize), Refusal>,
    sheet: &[u64],
)
    requires whole { IsWhole answer sheet.now }
    requires room { Fits page.old (given_text group answer sheet.now) }
    ensures { Appends page.old (given_text group answer sheet.now) page.new }
{
    match answer {
        Ok((start, end, first, written)) => {
            page.line("group", &[group as u64, start as u64, end as u64]);
            row_lines(page, first, &sheet[..written]);
        }
        Err(refusal) => page.line("rest", &[refusal.place]),
    }
}

/// The line of each row of a sheet, whose words these are.
fn row_lines(page: &mut Page<'_>, first: u32, words: &[u64])
    requires whole { AreSheetWords words.now }
    requires room { Fits page.old (rows_text first (rows_in words.now)) }
    ensures { Appends page.old (rows_text first (rows_in words.now)) page.new }
{
    let count = words[0] as usize;
    let (sizes, mut ends) = words[1..].split_at(count);
    // behind all ends stand as many models
    let mut models = &ends[ends.len() / 2..];
    for (k, size) in sizes.iter().enumerate() {
        let (row_ends, later_ends) = ends.split_at(*size as usize);
        let (row_models, later_models) = models.split_at(*size as usize);
        row_line(page, first as u64 + k as u64, row_ends, row_models);
        ends = later_ends;
        models = later_models;
    }
}

/// The line of a worker, whose spans end here and are of these models.
fn row_line(page: &mut Page<'_>, worker: u64, ends: &[u64], models: &[u64])
    requires long { length models.now ≡ length ends.now }
    requires room { Fits page.old (row_text worker (row_from ends.now models.now)) }
    ensures { Appends page.old (row_text worker (row_from ends.now models.now)) page.new }
{
    page.put("row ");
    page.number(worker);
    for (end, model) in ends.iter().zip(models) {
        span_words(page, *end, *model);
    }
    page.put("\n");
}

/// Where a span ends, and its model.
fn span_words(page: &mut Page<'_>, end: u64, model: u64)
    requires { Fits page.old (span_text (record { end = end; model = model })) }
    ensures { Appends page.old (span_text (record { end = end; model = model })) page.new }
{
    page.put(" ");
    page.number(end);
    page.put(":");
    page.number(model);
}
