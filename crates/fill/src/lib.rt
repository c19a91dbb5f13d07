// Filling a hole from a register advance (change request 2026-01): the advance goes to a date's missing periods by a category's shape. Nothing is written before all checks have passed.
#![tactic(auto)]

mod division;
mod missing;
mod opted_out;
mod shares;
mod threshold;

ghost use Rattle.std.specs.Prelude.{◌≡◌};
ghost use Rattle.ledger.specs.Fill.{of_category, of_opted_out};
ghost use Rattle.ledger.specs.Ledger.{answer, filled_are, left};
ghost use Rattle.ledger.specs.Store.{periods_of};
ghost use Rattle.ledger.specs.Calls.{fill_verdict, fill_for, overwritten};
ghost use Rattle.store.specs.Outcome.{fill_answer};
ghost use Rattle.fill.specs.Asked.{fill_call};

use crate::missing::{check_sum, missing_sum};
use crate::opted_out::opted_out_category;
use crate::shares::share_out;
use reads::checks::{check_range, check_run};
use store::column::column_of;
use store::lent::cells_lent;
use store::refusal::Refusal;

// Any mark but 0 in `missing` says that the period is missing.
#[tactic(auto, using(store::proofs::Refusals::refused_at, crate::proofs::ReadLaws::place_is, store::proofs::Refusals::number_some, ledger::proofs::Verdicts::left_some, crate::proofs::ReadLaws::by_range, crate::proofs::ReadLaws::by_run, crate::proofs::ReadLaws::by_sum, crate::proofs::ReadLaws::filled_answers, crate::proofs::ReadLaws::filled_written, reads::proofs::CheckLaws::range_passed))]
pub fn fill(
    settings: &[u8],
    cells: &[u64],
    date: u64,
    category: u64,
    advance: u32,
    missing: &[u8],
    filled: &mut [u64],
) -> Result<(), Refusal>
    ensures answers { fill_answer (periods_of settings.now) result filled.new ≡ answer (fill_verdict settings.now cells.now (fill_call (of_category category) date advance missing.now filled.old)) (filled_are (fill_for settings.now cells.now (fill_call (of_category category) date advance missing.now filled.old))) }
    ensures filled_is { filled.new ≡ left (fill_verdict settings.now cells.now (fill_call (of_category category) date advance missing.now filled.old)) filled.old (overwritten (fill_for settings.now cells.now (fill_call (of_category category) date advance missing.now filled.old)) filled.old) }
{
    let lent = check_range(
        settings,
        cells,
        date,
        category,
        missing.len() as u64,
        filled.len() as u64,
    )?;
    check_run(lent, date)?;
    let column = column_of(lent.settings, category);
    let sum = missing_sum(cells, column, date, missing);
    check_sum(sum)?;
    share_out(cells, column, date, missing, sum, advance as u64, filled);
    Ok(())
}

// For a domestic Advanced meter opted out of half-hours, by the shape of the Smart domestic category with its group, quantity and connection.
#[tactic(auto, using(store::proofs::Refusals::refused_at, store::proofs::Refusals::number_some, ledger::proofs::Verdicts::left_some, crate::proofs::ReadLaws::place_is, crate::proofs::ReadLaws::by_unready, crate::proofs::ReadLaws::same_verdict, crate::proofs::ReadLaws::same_values))]
pub fn fill_opted_out(
    settings: &[u8],
    cells: &[u64],
    date: u64,
    group: u64,
    quantity: u64,
    connection: u64,
    advance: u32,
    missing: &[u8],
    filled: &mut [u64],
) -> Result<(), Refusal>
    ensures answers { fill_answer (periods_of settings.now) result filled.new ≡ answer (fill_verdict settings.now cells.now (fill_call (of_opted_out group quantity connection) date advance missing.now filled.old)) (filled_are (fill_for settings.now cells.now (fill_call (of_opted_out group quantity connection) date advance missing.now filled.old))) }
    ensures filled_is { filled.new ≡ left (fill_verdict settings.now cells.now (fill_call (of_opted_out group quantity connection) date advance missing.now filled.old)) filled.old (overwritten (fill_for settings.now cells.now (fill_call (of_opted_out group quantity connection) date advance missing.now filled.old)) filled.old) }
{
    let lent = cells_lent(settings, cells)?;
    let category = opted_out_category(lent.settings, group, quantity, connection);
    fill(settings, cells, date, category, advance, missing, filled)
}
