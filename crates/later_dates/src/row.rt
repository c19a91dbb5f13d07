// A date's row among the cells.
ghost use Rattle.std.specs.Prelude.{◌≡◌, ◌*◌, ◌<◌, take, drop};
ghost use Rattle.ledger.specs.Store.{dates_of, row_length};

use store::lent::Cells;
use store::rows::{row_length, row_start};

#[tactic(auto, using(crate::proofs::Laws::row_there))]
pub fn row_of<'a>(cells: Cells<'a>, date: u64) -> &'a [u64]
    requires { date < dates_of cells.settings.bytes.now }
    ensures { result.now ≡ take (row_length cells.entry.settings.bytes.now) (drop (date * row_length cells.entry.settings.bytes.now) cells.entry.entries.now) }
{
    let length = row_length(cells.settings);
    let at = row_start(length, date);
    &cells.entries[at..at + length as usize]
}
