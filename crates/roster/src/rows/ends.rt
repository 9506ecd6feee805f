//! The pieces at the two ends of a worker's row.
ghost use Rattle.std.specs.Prelude.{◌≡◌, ◌≤◌};
ghost use Rattle.book.specs.Racks.{rack_of};
ghost use Rattle.book.specs.Turns.{head_of};
ghost use Rattle.roster.specs.Seating.{chain_with};
ghost use Rattle.roster.specs.Filling.{parts_at, StandsAt, EndsOf};

use crate::Roster;
use crate::sheet::Ends;
use calendar::Calendar;
use kinds::runs::Run;
use order::Order;
use plan::pieces::Pieces;

impl<'a, C: Calendar, O: Order<Item = Run>> Roster<'a, C, O> {
    /// The ends of a worker's row in an interval of so many ticks: a mirror swaps the first piece and the second.
    pub(crate) fn ends(&self, worker: u32, mirrored: bool, ticks: u32) -> Ends
        requires { (1 ≤ worker) × (worker ≤ (rack_of self.now.plan.now).workers) }
        ensures { EndsOf self.now.plan.now self.now.models.records mirrored worker ticks result }
    {
        let (first, head) = self.end(worker, mirrored);
        let (last, tail) = self.end(worker, !mirrored);
        let grain = self.plan.set.sizes.grain as u64;
        let ticks = ticks as u64;
        Ends {
            head,
            opens: first * ticks,
            closes: (grain - last) * ticks,
            tail,
            long: grain * ticks,
        }
    }

    /// The first piece on a worker, or the second: its size, and its model, or 0 where that has no run.
    /// At most one model has one there, so the sum is its size.
    fn end(&self, worker: u32, second: bool) -> (u64, u32)
        requires { (1 ≤ worker) × (worker ≤ (rack_of self.now.plan.now).workers) }
        ensures size { result.0 ≡ parts_at self.now.plan.now second worker }
        ensures model { StandsAt self.now.plan.now self.now.models.records second worker result.1 }
    {
        let mut size = 0;
        let mut model = 0;
        let mut slot = self.chains.heads[chain_with(worker, second) as usize];
        while slot < self.plan.set.sizes.models as usize {
            let piece = piece_on(self.plan.pieces[slot], worker, second);
            size += piece as u64;
            if piece > 0 && self.models.phase(slot).is_live() {
                model = slot as u32 + 1;
            }
            slot = self.chains.nexts[slot];
        }
        (size, model)
    }
}

/// The size of a model's first piece on a worker, or of its second; 0 where it has none there.
fn piece_on(pieces: Pieces, worker: u32, second: bool) -> u32
    requires { 1 ≤ worker }
    ensures { result ≡ head_of second worker pieces }
{
    let Pieces::Divided {
        worker: on,
        first,
        second: other,
    } = pieces
    else {
        return 0;
    };
    match second {
        false if on == worker => first,
        true if on == worker - 1 => other,
        _ => 0,
    }
}

/// The chain with the first pieces of a worker, or with its second pieces.
fn chain_with(worker: u32, second: bool) -> u32
    requires { 1 ≤ worker }
    ensures { result ≡ chain_with second worker }
{
    if second { worker - 1 } else { worker }
}
