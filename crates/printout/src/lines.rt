//! The lines of the text, one function for each part of it.
ghost use Rattle.printout.specs.Pages.{Fits, HasRoom, Appends};
ghost use Rattle.printout.specs.Texts.{refusal_text, pieces_text, loads_text, models_text};
ghost use Rattle.printout.specs.Printing.{IsPlanText, IsText};
ghost use Rattle.printout.specs.Showing.{Shows};

use crate::groups::group_lines;
use crate::page::Page;
use plan::pieces::Pieces;
use plan::plans::Plan;
use refusal::Refusal;

/// The one line of a refusal. Its `Display` would not do here: page.rt says why.
fn refusal_line(page: &mut Page<'_>, refusal: Refusal)
    requires { Fits page.old (refusal_text refusal) }
    ensures { Appends page.old (refusal_text refusal) page.new }
{
    page.put("refused ");
    page.number(refusal.fault.number());
    page.put(" ");
    page.put(refusal.layer.word());
    page.put(" ");
    page.number(refusal.place);
    page.put("\n");
}

/// A line for each piece of a model.
fn pieces_lines(page: &mut Page<'_>, model: u64, pieces: Pieces)
    requires { Fits page.old (pieces_text model pieces) }
    ensures { Appends page.old (pieces_text model pieces) page.new }
{
    match pieces {
        Pieces::Whole { worker, size } => page.line("piece", &[model, worker as u64, size as u64]),
        Pieces::Divided {
            worker,
            first,
            second,
        } => {
            page.line("piece", &[model, worker as u64, first as u64]);
            page.line("piece", &[model, worker as u64 + 1, second as u64]);
        }
    }
}

/// A line for each worker's load.
fn load_lines(page: &mut Page<'_>, plan: &Plan)
    requires { Fits page.old (loads_text plan.now) }
    ensures { Appends page.old (loads_text plan.now) page.new }
{
    let loads = &plan.loads[..plan.set.sizes.workers as usize];
    for (p, load) in loads.iter().enumerate() {
        page.line("load", &[p as u64 + 1, *load as u64]);
    }
}

/// The lines of all models' pieces.
fn model_lines(page: &mut Page<'_>, plan: &Plan)
    requires { Fits page.old (models_text plan.now) }
    ensures { Appends page.old (models_text plan.now) page.new }
{
    let pieces = &plan.pieces[..plan.set.sizes.models as usize];
    for (i, model_pieces) in pieces.iter().enumerate() {
        pieces_lines(page, i as u64 + 1, *model_pieces);
    }
}

/// All lines of a plan.
pub(crate) fn plan_lines(page: &mut Page<'_>, plan: &Plan)
    requires { HasRoom page.old 16384 }
    ensures { Shows (IsPlanText plan.now) page.old page.new }
{
    let sizes = plan.set.sizes;
    page.line(
        "plan",
        &[
            sizes.models as u64,
            sizes.workers as u64,
            sizes.group_size as u64,
            sizes.grain as u64,
        ],
    );
    load_lines(page, plan);
    model_lines(page, plan);
    group_lines(page, plan);
    page.line("end", &[]);
}

/// All lines of what placing a file gave.
pub(crate) fn text_lines(page: &mut Page<'_>, placed: Result<Plan, Refusal>)
    requires { HasRoom page.old 16384 }
    ensures { Shows (IsText placed) page.old page.new }
{
    match placed {
        Ok(plan) => plan_lines(page, &plan),
        Err(refusal) => refusal_line(page, refusal),
    }
}
