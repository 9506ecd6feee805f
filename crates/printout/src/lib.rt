//! What is printed of a plan or of a set file, as text in memory that the caller lends.
#![tactic(auto)]

ghost use Rattle.std.specs.Prelude.{◌≡◌, ℕ, ◌<◌, ◌≤◌, List, ◌++◌, length, MatchResult};
ghost use Rattle.refusal.specs.Refusals.{Answers};
ghost use Rattle.printout.specs.Printing.{about_memory, IsPlanText, IsFileText, Prints};

use lines::{plan_lines, text_lines};
use page::Page;
use placement::place_file;
use plan::plans::Plan;
use refusal::{Fault, Layer, Lent, Refusal};

mod groups;
mod lines;
mod page;

/// The least memory that a text is written to: every text fits it.
pub const TEXT_BYTES: usize = 16384;

/// Prints a plan, with the first interval of each group, and answers how many bytes the text has; those behind it stay.
/// Refused with 10 (`running`, place 3) where the memory has under `TEXT_BYTES` bytes, which is then as it was.
///
/// The intervals are those of a roster that is newly opened, where each model has the dates 0, T, 2T and so on, T being its period,
/// and runs with one deadline take turns by model number.
pub fn print_plan(plan: &Plan, text: &mut [u8]) -> Result<usize, Refusal>
    ensures prints { Prints (IsPlanText plan.now) text.old text.new result }
    ensures lent { MatchResult result (λ n. n ≤ length text.new) (λ _. text.new ≡ text.old) }
{
    check(text)?;
    let mut page = Page::new(text);
    plan_lines(&mut page, plan);
    Ok(page.len())
}

/// Prints the plan of a set file as `print_plan` does, or the refusal of the file.
/// Itself it is refused as `print_plan` is, before the file is looked at.
/// More than `setfile::MOST_BYTES` bytes have one text, whatever stands behind them.
pub fn print_file(bytes: &[u8], text: &mut [u8]) -> Result<usize, Refusal>
    ensures prints { Prints (IsFileText bytes.now) text.old text.new result }
    ensures longer { (more : List ℕ) → 528 < length bytes.now → Prints (IsFileText (bytes.now ++ more)) text.old text.new result }
    ensures lent { MatchResult result (λ n. n ≤ length text.new) (λ _. text.new ≡ text.old) }
{
    check(text)?;
    let mut page = Page::new(text);
    text_lines(&mut page, place_file(bytes));
    Ok(page.len())
}

/// Refuses memory that not every text fits.
fn check(text: &[u8]) -> Result<(), Refusal>
    ensures { Answers (about_memory (length text.now)) result (λ _. Unit {0}) }
{
    if text.len() < TEXT_BYTES {
        return Err(Fault::Memory.at(Layer::Running, Lent::Text.place()));
    }
    Ok(())
}
