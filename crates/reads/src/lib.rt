// The reads of a cell and of a row; they only look at what they are lent. The cell's checks serve other calls on cells as well.
#![tactic(auto)]

ghost use Rattle.std.specs.Prelude.{◌≡◌};
ghost use Rattle.ledger.specs.Ledger.{answer, cell_is};
ghost use Rattle.ledger.specs.Calls.{cell_verdict, cell_for};
ghost use Rattle.store.specs.Outcome.{cell_answer};

use crate::checks::cell_check;
use entries::cell::Cell;
use store::column::{cell_at, column_of};
use store::refusal::Refusal;

pub mod checks;
pub mod row;

#[tactic(auto, using(store::proofs::Refusals::refused_at, store::proofs::Refusals::given_at, crate::proofs::CheckLaws::cell_passed), unfolding(ledger::specs::Calls::cell_verdict, ledger::specs::Calls::cell_for))]
pub fn read_cell(
    settings: &[u8],
    cells: &[u64],
    date: u64,
    category: u64,
    period: u64,
) -> Result<Cell, Refusal>
    ensures { cell_answer result ≡ answer (cell_verdict settings.now cells.now date category period) (cell_is (cell_for settings.now cells.now date category period)) }
{
    let cells = cell_check(settings, cells, date, category, period)?;
    let column = column_of(cells.settings, category);
    Ok(cell_at(cells.entries, column, date, period - 1))
}
