// Whether a date is run, read off the entry of its first cell.
ghost use Rattle.std.specs.Prelude.{◌≡◌, ◌*◌, ◌<◌, length};
ghost use Rattle.ledger.specs.Store.{is_run_at};

use crate::access::entry_at;

#[tactic(auto, unfolding(ledger::specs::Store::is_run_at))]
pub fn is_run(row_length: u64, cells: &[u64], date: u64) -> bool
    requires { date * row_length < length cells.now }
    ensures { result ≡ is_run_at row_length cells.now date }
{
    entry_at(cells, date * row_length) != 0
}
