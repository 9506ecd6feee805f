//! The rows of an interval.
ghost use Rattle.std.specs.Prelude.{◌≡◌, ◌+◌, ◌-◌, ◌≤◌, false, length, slice_index_or};
ghost use Rattle.book.specs.Racks.{rack_of};
ghost use Rattle.roster.specs.Spans.{spans_of};
ghost use Rattle.roster.specs.Tables.{rows_of};
ghost use Rattle.roster.specs.Intervals.{IsGroupOf, IsRowOf, AreRowsOf};

use crate::Roster;
use crate::group::Group;
use crate::sheet::{Row, Rows};
use calendar::Calendar;
use kinds::runs::Run;
use order::Order;
use queue::Queue;

mod ends;
mod waiting;

impl<'a, C: Calendar, O: Order<Item = Run>> Roster<'a, C, O> {
    /// The rows of the next interval of a group, which has so many ticks.
    pub(crate) fn rows(&self, group: &Group<'_>, ticks: u32, scratch: &mut [Run]) -> Rows
        requires room { 64 ≤ length scratch.old }
        requires group { IsGroupOf self.now group.now }
        ensures rows { AreRowsOf self.now ticks group.now.workers.first (rows_of result) }
        ensures all { group.now.workers.first + length (rows_of result) ≡ group.now.workers.last + 1 }
        ensures scratch { length scratch.new ≡ length scratch.old }
    {
        let mirrored = self.mirrored[group.number as usize - 1];
        let mut rows = Rows::new();
        let mut row = Row::new();
        for worker in group.workers.first..group.workers.last + 1 {
            self.make_row(&mut row, worker, mirrored, ticks, scratch);
            rows.push(&row);
        }
        rows
    }

    /// Makes the row of a worker in this interval.
    fn make_row(&self, row: &mut Row, worker: u32, mirrored: bool, ticks: u32, scratch: &mut [Run])
        requires room { 64 ≤ length scratch.old }
        requires worker { (1 ≤ worker) × (worker ≤ (rack_of self.now.plan.now).workers) }
        requires mirrored { mirrored ≡ slice_index_or self.now.mirrored ((rack_of self.now.plan.now).group worker - 1) false }
        ensures row { IsRowOf self.now ticks worker (spans_of row.new) }
        ensures scratch { length scratch.new ≡ length scratch.old }
    {
        let ends = self.ends(worker, mirrored, ticks);
        let mut queue = Queue::new(scratch);
        self.fill(&mut queue, worker);
        row.make(ends, &mut queue, self.order);
    }
}
