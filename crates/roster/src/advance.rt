//! How a group is advanced.
ghost use Rattle.std.specs.Prelude.{◌≡◌, ◌-◌, ◌<◌, ◌≤◌, length, slice_index, OnErr, OnOk, IfSome};
ghost use Rattle.refusal.specs.Refusals.{Answers};
ghost use Rattle.book.specs.Racks.{rack_of};
ghost use Rattle.book.specs.Books.{blank};
ghost use Rattle.book.specs.Calls.{about, Advance};
ghost use Rattle.roster.specs.Keeping.{Keeps, Advances, advance_of};
ghost use Rattle.roster.specs.Intervals.{IsGroupOf, ComesTo, IsNextMoment};

use crate::coming::Coming;
use crate::group::Group;
use crate::{Roster, SCRATCH_RUNS, SHEET_WORDS};
use calendar::Calendar;
use kinds::runs::Run;
use order::Order;
use refusal::{Fault, Layer, Lent, Refusal};

impl<'a, C: Calendar, O: Order<Item = Run>> Roster<'a, C, O> {
    /// Takes a group to its next moment, the first later tick that is a date of one of its models or the deadline of one of its runs, and writes the sheet of the interval.
    /// Answers the start and the end of the interval, the number of the group's first worker, and how many words were written; the words behind them stay, and the scratch is free.
    ///
    /// Refused by the layer `running`, the first of these first: with 9 where there is no such group;
    /// with 10 where the sheet has under `SHEET_WORDS` words (place 1) or the scratch room for under `SCRATCH_RUNS` runs (place 2);
    /// with 12 where the group has no later moment. Then nothing is altered, and no memory is written to.
    ///
    /// It looks at each model a few times, and asks the calendar once for each model of the group that is not withdrawn.
    pub fn advance(
        &mut self,
        group: u32,
        sheet: &mut [u64],
        scratch: &mut [Run],
    ) -> Result<(u32, u32, u32, usize), Refusal>
        ensures keeps { Keeps self.old (advance_of group sheet.old scratch.old) (Advances result sheet.old sheet.new scratch.old scratch.new) self.new }
        ensures unchanged { OnErr result ((sheet.new ≡ sheet.old) × (scratch.new ≡ scratch.old) × (self.new ≡ self.old)) }
        ensures room { (length sheet.new ≡ length sheet.old) × (length scratch.new ≡ length scratch.old) }
    {
        let group = self.check(group, sheet.len(), scratch.len())?;
        let slot = group.number as usize - 1;
        let start = self.presents[slot];
        let coming = self.coming(&group);
        let Some(end) = self.next(&group, &coming) else {
            return Err(Fault::Moment.at(Layer::Running, group.number as u64));
        };
        let rows = self.rows(&group, end - start, scratch);
        let written = rows.write(sheet);
        self.models.serve(&rows);
        coming.settle(&mut self.models, &group, end);
        self.presents[slot] = end;
        self.mirrored[slot] = !self.mirrored[slot];
        Ok((start, end, group.workers.first, written))
    }

    /// What an advance refuses before anything is done; else the group.
    fn check(&self, group: u32, words: usize, things: usize) -> Result<Group<'a>, Refusal>
        ensures { Answers (about (rack_of self.now.plan.now) blank (Advance group words things)) result (λ it. (it.number ≡ group) × IsGroupOf self.now it) }
    {
        let Some(workers) = self.grouping.workers_in(group) else {
            return Err(Fault::Group.at(Layer::Running, group as u64));
        };
        if words < SHEET_WORDS {
            return Err(Fault::Memory.at(Layer::Running, Lent::Sheet.place()));
        }
        if things < SCRATCH_RUNS {
            return Err(Fault::Memory.at(Layer::Running, Lent::Scratch.place()));
        }
        Ok(Group {
            plan: self.plan,
            number: group,
            workers,
        })
    }

    /// The earliest dates after the present of a group.
    fn coming(&self, group: &Group<'_>) -> Coming
        requires { IsGroupOf self.now group.now }
        ensures { ComesTo self.now group.now.number result.dates }
    {
        let from = self.presents[group.number as usize - 1] + 1;
        Coming::ask(self.calendar, &self.models, group, from)
    }

    /// The next moment of a group.
    fn next(&self, group: &Group<'_>, coming: &Coming) -> Option<u32>
        requires group { IsGroupOf self.now group.now }
        requires comes { ComesTo self.now group.now.number coming.now.dates }
        ensures next { IsNextMoment self.now group.now.number result }
        ensures later { IfSome result (λ t. slice_index self.now.presents (group.now.number - 1) < t) }
    {
        coming.next(&self.models, group)
    }
}
