//! The calls that name a model.
ghost use Rattle.std.specs.Prelude.{◌≡◌, ◌-◌, slice_index, OnErr};
ghost use Rattle.set.specs.Sets.{HasModel};
ghost use Rattle.standing.specs.Standings.{reported};
ghost use Rattle.book.specs.Racks.{rack_of};
ghost use Rattle.book.specs.Books.{group_with};
ghost use Rattle.book.specs.Calls.{Withdraw, Withdrew, AskStanding, Stands};
ghost use Rattle.roster.specs.Keeping.{Keeps, Agrees};

use crate::Roster;
use crate::event::Event;
use crate::phase::Phase;
use calendar::Calendar;
use kinds::runs::Run;
use order::Order;
use refusal::{Fault, Layer, Refusal};
use standing::Standing;

impl<'a, C: Calendar, O: Order<Item = Run>> Roster<'a, C, O> {
    /// Withdraws a model: its run ends, if it has one, and it has no dates any more.
    /// Refused with 11 where there is no such model and with 13 where it is withdrawn already, both of layer `running`; then nothing is altered.
    pub fn withdraw(&mut self, model: u32) -> Result<(), Refusal>
        ensures keeps { Keeps self.old (Withdraw model) (Agrees (λ done answer. answer ≡ Withdrew) result) self.new }
        ensures unchanged { OnErr result (self.new ≡ self.old) }
    {
        let Some(slot) = self.plan.set.slot(model) else {
            return Err(Fault::Model.at(Layer::Running, model as u64));
        };
        if let Phase::Withdrawn = self.models.phase(slot) {
            return Err(Fault::Withdrawn.at(Layer::Running, model as u64));
        }
        self.models.meet(slot, Event::Withdrawal);
        Ok(())
    }

    /// How a model stands at the present of its group: its phase, and, of a run, its date, the parts that the sheets gave it since, and its lag, which is below 0 where it is behind an even pace.
    /// Refused with 11 (`running`) where there is no such model.
    pub fn standing(&self, model: u32) -> Result<Standing, Refusal>
        ensures { Keeps self.now (AskStanding model) (Agrees (λ standing answer. answer ≡ Stands (reported standing)) result) self.now }
    {
        let Some(weight) = self.plan.set.weight(model) else {
            return Err(Fault::Model.at(Layer::Running, model as u64));
        };
        let phase = self.models.phase(model as usize - 1);
        Ok(phase.standing(weight, self.present(model)))
    }

    /// The present of a model is that of its group.
    fn present(&self, model: u32) -> u32
        requires { HasModel self.now.plan.now.set model }
        ensures { result ≡ slice_index self.now.presents (group_with (rack_of self.now.plan.now) model - 1) }
    {
        let worker = self.plan.pieces[model as usize - 1].worker();
        self.presents[self.grouping.group_of(worker) as usize - 1]
    }
}
