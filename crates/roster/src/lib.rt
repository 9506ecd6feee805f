//! A roster of runs over a plan, a calendar and an order: interval after interval it gives the sheet that each group of workers obeys.
#![tactic(auto)]

ghost use Rattle.std.specs.Prelude.{◌≡◌, true, is_none, length};
ghost use Rattle.book.specs.Racks.{rack_of};
ghost use Rattle.book.specs.Calls.{about_opening};
ghost use Rattle.roster.specs.Seating.{ChainedFrom};
ghost use Rattle.roster.specs.Telling.{HasBook};

mod advance;
mod calls;
mod chains;
mod coming;
mod event;
mod group;
mod models;
mod open;
mod phase;
mod record;
mod rows;
mod sheet;

use calendar::Calendar;
use chains::Chains;
use kinds::runs::Run;
use models::Models;
use order::Order;
use plan::groups::Grouping;
use plan::plans::Plan;
use set::sizes::WORKERS;

/// The words that an advance asks for. No sheet has more than 287.
pub const SHEET_WORDS: usize = 512;

/// The runs that the scratch of an advance must have room for: a worker has at most one for each model.
pub const SCRATCH_RUNS: usize = 64;

/// Which runs go on, and how far each group has come.
///
/// Of each group it holds its present, the tick up to which its sheets go, and whether its next sheet is mirrored; of each model a record.
/// The plain book holds all sheets and reads the phase of a model off them; a record holds the phase, with what the run got so far.
/// That this is enough is the fact `booked`: there is a book, to which calls have led from the blank one, that says what the fields say.
/// It borrows the plan, the calendar and the order, and owns no other memory.
#[derive(Drop)]
pub struct Roster<'a, C: Calendar, O: Order<Item = Run>> {
    plan: &'a Plan,
    calendar: &'a C,
    order: &'a O,
    presents: [u32; WORKERS],
    mirrored: [bool; WORKERS],
    models: Models,
    /// what is noted of the plan, so that it is not searched again: which models stand on a worker, and how the workers stand in groups
    chains: Chains,
    grouping: Grouping<'a>,
    ghost groups: { length presents ≡ 32 },
    ghost flags: { length mirrored ≡ 32 },
    ghost chained: { ChainedFrom plan.now 0 chains.heads chains.nexts },
    ghost grouped: { grouping.set.now ≡ plan.now.set },
    ghost spaced: { is_none (about_opening (rack_of plan.now) (C.spacings calendar.now)) ≡ true },
    ghost booked: { ∥ HasBook plan.now (C.dates calendar.now) (O.precedes order.now) presents mirrored models.records ∥₁ },
}
