//! Dates that the caller lists.
ghost use Rattle.std.specs.Prelude.{◌≡◌, ◌<◌, ◌^◌, ℕ, All, IsTrue, is_none, slice_index, true};
ghost use Rattle.refusal.specs.Refusals.{Answers};
ghost use Rattle.dates.specs.Dates.{is_model};
ghost use Rattle.dates.specs.Lists.{about_entries, accepted, listed, listed_spacings, Ended};
ghost use Rattle.dates.proofs.Lists.{listed-CalendarLaws};

use crate::table::at_model;
use calendar::Calendar;
use dates::{END, is_model};
use kinds::entries::Entry;
use refusal::{Fault, Layer, Refusal};
use set::sizes::MODELS;

/// Entries by tick, and the spacings of the models 1 to 64.
#[derive(Clone, Copy, Debug)]
pub struct ListCalendar<'a> {
    entries: &'a [Entry],
    spacings: [u32; MODELS],
    // for each model a tick that all of its dates are below
    ends: [u32; MODELS],
    ghost narrow: { (i : ℕ) → slice_index spacings i < 2 ^ 32 },
    ghost sound: { is_none (about_entries spacings entries.now) ≡ true },
    ghost ended: { Ended ends entries.now },
}

/// Refuses the first entry that does not fit behind those before it.
pub fn check(entries: &[Entry], spacings: &[u32; MODELS]) -> Result<(), Refusal>
    ensures { Answers (about_entries spacings.now entries.now) result (λ _. Unit {0}) }
{
    // for each model the least tick that its next date may have
    let mut least = [0u64; MODELS];
    let mut past = 0;
    for (i, entry) in entries.iter().enumerate() {
        let misfit = Fault::Misfit.at(Layer::Calendar, i as u64);
        if entry.tick < past || entry.tick >= END || !is_model(entry.model) {
            return Err(misfit);
        }
        let slot = entry.model as usize - 1;
        if (entry.tick as u64) < least[slot] {
            return Err(misfit);
        }
        least[slot] = entry.tick as u64 + spacings[slot] as u64;
        past = entry.tick;
    }
    Ok(())
}

/// The entries before the first that is declined.
fn accepted<'a>(entries: &'a [Entry], spacings: &[u32; MODELS]) -> &'a [Entry]
    ensures { result.now ≡ accepted spacings.now entries.now }
{
    match check(entries, spacings) {
        Ok(()) => entries,
        Err(refusal) => &entries[..refusal.place as usize],
    }
}

/// For each model a tick that all of its dates are below.
fn ends(entries: &[Entry]) -> [u32; MODELS]
    requires { All (λ (e : Entry). (e.tick < 2 ^ 30) × IsTrue (is_model e.model)) entries.now }
    ensures { Ended result entries.now }
{
    let mut ends = [0; MODELS];
    for entry in entries {
        let slot = entry.model as usize - 1;
        ends[slot] = ends[slot].max(entry.tick + 1);
    }
    ends
}

impl<'a> ListCalendar<'a> {
    /// The dates of these entries, or of those before the first that is declined.
    #[tactic(auto, using(dates::proofs::Ends::accepted_dated))]
    pub fn new(entries: &'a [Entry], spacings: [u32; MODELS]) -> Self
        ensures entries { result.entries.now ≡ accepted spacings entries.now }
        ensures spacings { result.spacings ≡ spacings }
    {
        let entries = accepted(entries, &spacings);
        ListCalendar {
            entries,
            spacings,
            ends: ends(entries),
        }
    }
}

impl Calendar for ListCalendar<'_> {
    ghost dates = { λ c. listed c.entries.now };

    ghost spacings = { λ c. listed_spacings c.spacings };

    ghost laws = { λ c. listed-CalendarLaws c.spacings c.entries.now c.narrow c.sound };

    fn spacing(&self, model: u32) -> u32 {
        at_model(&self.spacings, model, END)
    }

    #[tactic(auto, using(dates::proofs::Ends::none_past))]
    fn earliest(&self, model: u32, from: u32) -> Option<u32> {
        if from >= at_model(&self.ends, model, 0) {
            return None;
        }
        let start = self.entries.partition_point(|entry| entry.tick < from);
        self.entries[start..]
            .iter()
            .find(|entry| entry.model == model)
            .map(|entry| entry.tick)
    }
}
