// The checks of reads.
ghost use Rattle.std.specs.Prelude.{◌≡◌, not, ◌||◌, cond, ◌<◌, leb, IfOk};
ghost use Rattle.ledger.specs.Checks.{run_check, range_check, totals_in_range, cell_in_range, lists_short};
ghost use Rattle.ledger.specs.Store.{categories_of, dates_of, periods_of, row_length, is_run_at};
ghost use Rattle.ledger.specs.Calls.{cells_unready, cell_verdict};
ghost use Rattle.store.specs.Outcome.{failed_number};

use metering::range::between;
use settings::opened::Settings;
use store::column::{column_of, ran_on};
use store::lent::{Cells, cells_lent};
use store::refusal::Check;

// 9: no such date.
pub fn check_date(settings: Settings, date: u64) -> Result<(), Check>
    ensures { failed_number result ≡ cond (leb (dates_of settings.entry.bytes.now) date) 9 0 }
{
    if settings.date_count() <= date {
        return Err(Check::Date);
    }
    Ok(())
}

// 1: too short or unopened; then 9.
#[tactic(auto, unfolding(ledger::specs::Checks::run_check))]
fn check_lent<'a>(settings: &'a [u8], cells: &'a [u64], date: u64) -> Result<Cells<'a>, Check>
    ensures number { failed_number result ≡ run_check (cells_unready settings.now cells.now) (dates_of settings.now) date }
    ensures lent { IfOk result (λ c. (c.settings.bytes.now ≡ settings.now) × (c.entries.now ≡ cells.now)) }
{
    let cells = cells_lent(settings, cells)?;
    check_date(cells.settings, date)?;
    Ok(cells)
}

// 15, by the category alone.
#[tactic(auto, unfolding(ledger::specs::Checks::totals_in_range))]
pub fn check_category(settings: Settings, category: u64) -> Result<(), Check>
    ensures { failed_number result ≡ cond (not (totals_in_range (categories_of settings.entry.bytes.now) category)) 15 0 }
{
    if settings.category_count() <= category {
        return Err(Check::Range);
    }
    Ok(())
}

// 1, of two lists too that take P entries each. The lists are told by their lengths.
#[tactic(auto, unfolding(ledger::specs::Checks::lists_short))]
fn check_lists<'a>(
    settings: &'a [u8],
    cells: &'a [u64],
    first: u64,
    second: u64,
) -> Result<Cells<'a>, Check>
    ensures number { failed_number result ≡ cond (cells_unready settings.now cells.now || lists_short (periods_of settings.now) first second) 1 0 }
    ensures lent { IfOk result (λ c. (c.settings.bytes.now ≡ settings.now) × (c.entries.now ≡ cells.now)) }
{
    let cells = cells_lent(settings, cells)?;
    let periods = cells.settings.period_count();
    if first < periods || second < periods {
        return Err(Check::Unready);
    }
    Ok(cells)
}

// 1, of two such lists too, 9 and 15.
#[tactic(auto, unfolding(ledger::specs::Checks::range_check))]
pub fn check_range<'a>(
    settings: &'a [u8],
    cells: &'a [u64],
    date: u64,
    category: u64,
    first: u64,
    second: u64,
) -> Result<Cells<'a>, Check>
    ensures number { failed_number result ≡ range_check (cells_unready settings.now cells.now || lists_short (periods_of settings.now) first second) (dates_of settings.now) date (totals_in_range (categories_of settings.now) category) 0 }
    ensures lent { IfOk result (λ c. (c.settings.bytes.now ≡ settings.now) × (c.entries.now ≡ cells.now)) }
{
    let cells = check_lists(settings, cells, first, second)?;
    check_date(cells.settings, date)?;
    check_category(cells.settings, category)?;
    Ok(cells)
}

// 15, for a cell read.
#[tactic(auto, unfolding(ledger::specs::Checks::cell_in_range))]
fn check_period(settings: Settings, category: u64, period: u64) -> Result<(), Check>
    ensures { failed_number result ≡ cond (not (cell_in_range (categories_of settings.entry.bytes.now) (periods_of settings.entry.bytes.now) category period)) 15 0 }
{
    if category < settings.category_count() && between(1, settings.period_count(), period) {
        return Ok(());
    }
    Err(Check::Range)
}

// 14: the date is not run, which every category's column says.
#[tactic(auto, unfolding(ledger::specs::Store::row_length))]
pub fn check_run(cells: Cells, date: u64) -> Result<(), Check>
    requires { date < dates_of cells.settings.bytes.now }
    ensures { failed_number result ≡ cond (not (is_run_at (row_length cells.entry.settings.bytes.now) cells.entry.entries.now date)) 14 0 }
{
    if !ran_on(cells.entries, column_of(cells.settings, 0), date) {
        return Err(Check::NotRun);
    }
    Ok(())
}

#[tactic(auto, using(crate::proofs::CheckLaws::date_passed), unfolding(ledger::specs::Calls::cell_verdict, ledger::specs::Checks::run_check, ledger::specs::Checks::read_check))]
pub fn cell_check<'a>(
    settings: &'a [u8],
    cells: &'a [u64],
    date: u64,
    category: u64,
    period: u64,
) -> Result<Cells<'a>, Check>
    ensures number { failed_number result ≡ (cell_verdict settings.now cells.now date category period).number }
    ensures lent { IfOk result (λ c. (c.settings.bytes.now ≡ settings.now) × (c.entries.now ≡ cells.now)) }
{
    let cells = check_lent(settings, cells, date)?;
    check_period(cells.settings, category, period)?;
    check_run(cells, date)?;
    Ok(cells)
}
