// The run date of a day type before a date, and what the date takes over from it.
ghost use Rattle.std.specs.Prelude.{◌≡◌, ℕ, ◌<◌, ◌≤◌, length, get_or, MatchOption};
ghost use Rattle.std.proofs.Math.Option.{none, some};
ghost use Rattle.ledger.specs.Method.{blank};
ghost use Rattle.ledger.specs.Store.{dates_of, row_length, day_type_of, entry_of};
ghost use Rattle.ledger.specs.Calls.{follows, last_run, inherited_from};

use crate::row::row_of;
use later_rows::carry_row;
use store::lent::Cells;
use store::rows::row_length;
use store::run_mark::is_run;

// Whether a date is a run one of the day type.
pub fn is_predecessor(cells: Cells, day: u64, date: u64) -> bool
    requires { date < dates_of cells.settings.bytes.now }
    ensures { result ≡ follows cells.entry.settings.bytes.now day cells.entry.entries.now date }
{
    if cells.settings.day_type(date) != day {
        return false;
    }
    is_run(row_length(cells.settings), cells.entries, date)
}

// The last such date before a date.
#[tactic(auto, unfolding(ledger::specs::Calls::last_run))]
fn last_run(cells: Cells, day: u64, date: u64) -> Option<u64>
    requires { date < dates_of cells.settings.bytes.now }
    ensures { MatchOption result (last_run cells.entry.settings.bytes.now cells.entry.entries.now day date ≡ none) (λ d. (d < date) × (last_run cells.entry.settings.bytes.now cells.entry.entries.now day date ≡ some d)) }
{
    for d in (0..date).rev() {
        if is_predecessor(cells, day, d) {
            return Some(d);
        }
    }
    None
}

// Fills in what the date takes over; where no earlier date is run, `inherited` stands.
pub fn inherit(cells: Cells, date: u64, inherited: &mut [u64])
    requires date_bound { (date < dates_of cells.settings.bytes.now) × (row_length cells.settings.bytes.now ≤ length inherited.old) }
    requires by_index { (k : ℕ) → k < row_length cells.settings.bytes.now → get_or inherited.old k 0 ≡ entry_of blank }
    ensures { (k : ℕ) → k < row_length cells.entry.settings.bytes.now → get_or inherited.new k 0 ≡ inherited_from (row_length cells.entry.settings.bytes.now) cells.entry.entries.now (last_run cells.entry.settings.bytes.now cells.entry.entries.now (day_type_of cells.entry.settings.bytes.now date) date) k }
{
    if let Some(last) = last_run(cells, cells.settings.day_type(date), date) {
        carry_row(row_of(cells, last), inherited);
    }
}
