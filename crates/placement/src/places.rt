ghost use Rattle.std.specs.Prelude.{◌≡◌, ℕ, ◌+◌, ◌^◌, ◌<◌, ◌≤◌, true, is_ok, length, slice_index, None};
ghost use Rattle.refusal.specs.Refusals.{Answers, first_below};
ghost use Rattle.set.specs.Sets.{models_of};
ghost use Rattle.plan.specs.Shares.{worker_of, last_of, on_worker, pieces_at, carried};
ghost use Rattle.placement.specs.Rules.{placed, about_light};
ghost use Rattle.placement.specs.Placing.{Places, Follows, Seated, Modest};

use crate::counted::Counted;
use crate::seating::Walk;
use plan::pieces::Pieces;
use plan::plans::Plan;
use refusal::Refusal;
use set::sets::Set;
use set::sizes::{MODELS, WORKERS};

/// The plan of a set, by the rules. A set is never refused whose models weigh at most k / (k + 1) of what the workers can do,
/// or all of it where the workers are one group.
pub fn place(set: &Set) -> Result<Plan, Refusal>
    ensures places { Places set.now result }
    ensures modest { Modest set.now → is_ok result ≡ true }
{
    let counted = Counted::new(set)?;
    let pieces = seat_all(&counted)?;
    let loads = loads_of(&pieces[..set.sizes.models as usize]);
    Ok(plan_of(&counted, pieces, loads))
}

/// The plan of a set whose models are in these places, with these loads.
fn plan_of(counted: &Counted<'_>, pieces: [Pieces; MODELS], loads: [u32; WORKERS]) -> Plan
    requires fine { first_below (about_light counted.now.grouping.set.now) (models_of counted.now.grouping.set.now) ≡ None }
    requires seated { Seated counted.now.grouping.set.now (models_of counted.now.grouping.set.now) pieces }
    requires loads { (p : ℕ) → p < 32 → slice_index loads p ≡ carried (pieces_at pieces) (p + 1) (models_of counted.now.grouping.set.now) }
    ensures { Follows counted.now.grouping.set.now result }
{
    Plan {
        set: *counted.grouping.set,
        pieces,
        loads,
    }
}

/// Where each model goes, or a refusal for the first light one that finds no room.
fn seat_all(counted: &Counted<'_>) -> Result<[Pieces; MODELS], Refusal>
    ensures { Answers (first_below (about_light counted.now.grouping.set.now) (models_of counted.now.grouping.set.now)) result (Seated counted.now.grouping.set.now (models_of counted.now.grouping.set.now)) }
{
    // a slot without a model: no call answers one, so an `Option` would be unwrapped wherever a slot is read
    let mut pieces = [Pieces::Whole { worker: 0, size: 0 }; MODELS];
    fill_seats(
        counted,
        &mut pieces[..counted.grouping.set.sizes.models as usize],
    )?;
    Ok(pieces)
}

/// Writes where each model goes, until the first one that finds no room.
fn fill_seats(counted: &Counted<'_>, seats: &mut [Pieces]) -> Result<(), Refusal>
    requires { length seats.old ≡ models_of counted.now.grouping.set.now }
    ensures { Answers (first_below (about_light counted.now.grouping.set.now) (models_of counted.now.grouping.set.now)) result (λ _. (i : ℕ) → i < models_of counted.now.grouping.set.now → pieces_at seats.new i ≡ placed counted.now.grouping.set.now i) }
{
    let mut walk = Walk::new(counted);
    for (i, seat) in seats.iter_mut().enumerate() {
        *seat = walk.seat(counted, i)?;
    }
    Ok(())
}

/// The loads that these pieces put on the workers.
fn loads_of(pieces: &[Pieces]) -> [u32; WORKERS]
    requires few { length pieces.now ≤ 64 }
    requires within { (i : ℕ) → i < length pieces.now → (1 ≤ worker_of (pieces_at pieces.now i)) × (last_of (pieces_at pieces.now i) ≤ 32) }
    requires room { (p : ℕ) → carried (pieces_at pieces.now) p (length pieces.now) ≤ 100800 }
    ensures { (p : ℕ) → p < 32 → slice_index result p ≡ carried (pieces_at pieces.now) (p + 1) (length pieces.now) }
{
    let mut loads = [0; WORKERS];
    for model_pieces in pieces {
        // through a name of its own: no proof is written for a call's result that goes straight into an array
        let more = add_pieces(loads, *model_pieces);
        loads = more;
    }
    loads
}

/// These loads, and what the pieces put on their workers.
fn add_pieces(mut loads: [u32; WORKERS], pieces: Pieces) -> [u32; WORKERS]
    requires first { 1 ≤ worker_of pieces }
    requires last { last_of pieces ≤ 32 }
    requires room { (p : ℕ) → p < 32 → slice_index loads p + on_worker (p + 1) pieces < 2 ^ 32 }
    ensures { (p : ℕ) → p < 32 → slice_index result p ≡ slice_index loads p + on_worker (p + 1) pieces }
{
    match pieces {
        Pieces::Whole { worker, size } => loads[worker as usize - 1] += size,
        Pieces::Divided {
            worker,
            first,
            second,
        } => {
            loads[worker as usize - 1] += first;
            loads[worker as usize] += second;
        }
    }
    loads
}
