// A category's row, handed back as a stretch of the memory where it stands: the published cells, or a draft.
ghost use Rattle.std.specs.Prelude.{◌≡◌, false, not, ◌||◌, ◌<◌, eqb, IfOk};
ghost use Rattle.ledger.specs.Checks.{read_check, totals_in_range};
ghost use Rattle.ledger.specs.Ledger.{answer, row_is};
ghost use Rattle.ledger.specs.Store.{categories_of, dates_of, row_length, is_run_at};
ghost use Rattle.ledger.specs.Calls.{draft_start, published_start, row_verdict, row_for};
ghost use Rattle.ledger.specs.Engine.{cells_of};
ghost use Rattle.store.specs.Outcome.{failed_number, row_answer};
ghost use Rattle.reads.specs.Row.{row_call};

use crate::checks::{check_category, check_date, check_run};
use settings::opened::Settings;
use store::lent::{Cells, cells_lent};
use store::refusal::{Check, Refusal};
use store::rows::{category_start, row_length, row_start};

// 9 and 15, and 14 of a published row.
#[tactic(auto, unfolding(ledger::specs::Checks::read_check))]
fn check_shown(cells: Cells, date: u64, category: u64, from_draft: u64) -> Result<(), Check>
    ensures { failed_number result ≡ read_check false (dates_of cells.entry.settings.bytes.now) date (totals_in_range (categories_of cells.entry.settings.bytes.now) category) (not (eqb from_draft 0) || is_run_at (row_length cells.entry.settings.bytes.now) cells.entry.entries.now date) }
{
    check_date(cells.settings, date)?;
    check_category(cells.settings, category)?;
    if from_draft != 0 {
        return Ok(());
    }
    check_run(cells, date)
}

#[tactic(auto, unfolding(ledger::specs::Calls::row_verdict, ledger::specs::Checks::row_check, ledger::specs::Calls::draft_unready))]
fn check_row<'a>(
    settings: &'a [u8],
    cells: &'a [u64],
    draft: &[u64],
    date: u64,
    category: u64,
    from_draft: u64,
) -> Result<Cells<'a>, Check>
    ensures number { failed_number result ≡ (row_verdict settings.now cells.now draft.now (row_call date category from_draft draft.now)).number }
    ensures lent { IfOk result (λ c. (c.settings.bytes.now ≡ settings.now) × (c.entries.now ≡ cells.now)) }
{
    let cells = cells_lent(settings, cells)?;
    if (draft.len() as u64) < row_length(cells.settings) {
        return Err(Check::DraftShort);
    }
    check_shown(cells, date, category, from_draft)?;
    Ok(cells)
}

// Where the row starts in a draft.
#[tactic(auto, using(ledger::proofs::Ready::ready, ledger::proofs::Ready::periods_bound), unfolding(ledger::specs::Calls::draft_start))]
fn draft_start(settings: Settings, category: u64) -> usize
    requires { category < categories_of settings.bytes.now }
    ensures { result ≡ draft_start settings.entry.bytes.now category }
{
    category_start(category, settings.period_count()) as usize
}

// And among the cells.
#[tactic(auto, using(crate::proofs::RowLaws::starts_small), unfolding(ledger::specs::Calls::published_start))]
fn published_start(settings: Settings, date: u64, category: u64) -> usize
    requires { (date < dates_of settings.bytes.now) × (category < categories_of settings.bytes.now) }
    ensures { result ≡ published_start settings.entry.bytes.now date category }
{
    row_start(row_length(settings), date) + draft_start(settings, category)
}

// Of the draft where `from_draft` is any number but 0, as the C interface passes it.
#[tactic(auto, using(store::proofs::Refusals::refused_at, store::proofs::Refusals::given_at, crate::proofs::RowLaws::place_is, crate::proofs::RowLaws::row_accepted, crate::proofs::RowLaws::within_cells, crate::proofs::RowLaws::within_draft, crate::proofs::RowLaws::published_row, crate::proofs::RowLaws::draft_row))]
pub fn read_row<'a>(
    settings: &[u8],
    cells: &'a [u64],
    draft: &'a [u64],
    date: u64,
    category: u64,
    from_draft: u64,
) -> Result<&'a [u64], Refusal>
    ensures answers { row_answer result ≡ answer (row_verdict settings.now cells.now draft.now (row_call date category from_draft draft.now)) (row_is (cells_of (row_for settings.now cells.now draft.now (row_call date category from_draft draft.now)))) }
    ensures row_is_stretch { IfOk result (λ row. row.now ≡ row_for settings.now cells.now draft.now (row_call date category from_draft draft.now)) }
{
    let lent = check_row(settings, cells, draft, date, category, from_draft)?;
    let periods = lent.settings.period_count() as usize;
    if from_draft == 0 {
        let at = published_start(lent.settings, date, category);
        return Ok(&cells[at..at + periods]);
    }
    let at = draft_start(lent.settings, category);
    Ok(&draft[at..at + periods])
}
