// The missing periods of the date, and what they count for.
ghost use Rattle.std.specs.Prelude.{◌<◌, ◌≤◌, ◌≡◌, cond, eqb, length};
ghost use Rattle.store.specs.Column.{Reaches};
ghost use Rattle.entries.specs.Sums.{Figure, Summed};
ghost use Rattle.store.specs.Column.{value_after};
ghost use Rattle.store.specs.Outcome.{failed_number};
ghost use Rattle.fill.specs.Sharing.{weight_in};

use store::column::{Column, cell_at};
use store::refusal::Check;

// The value of the period that comes after `k` others where its mark says that it is missing, else 0.
pub fn weight(cells: &[u64], column: Column, date: u64, k: u64, mark: u8) -> u64
    requires { Reaches cells.now column date × (k < column.periods) }
    ensures { Figure 4294967295 (cond (eqb mark 0) 0 (value_after column cells.now date k)) result }
{
    if mark == 0 {
        return 0;
    }
    let cell = cell_at(cells, column, date, k);
    cell.value
}

pub fn missing_sum(cells: &[u64], column: Column, date: u64, missing: &[u8]) -> u64
    requires { Reaches cells.now column date × (column.periods ≤ length missing.now) }
    ensures { Summed column.periods 4294967295 (weight_in column cells.now date missing.now) result }
{
    let mut sum = 0;
    for k in 0..column.periods {
        sum += weight(cells, column, date, k, missing[k as usize]);
    }
    sum
}

// 17, by that sum: nothing is missing, or the values sum to 0.
pub fn check_sum(sum: u64) -> Result<(), Check>
    ensures { failed_number result ≡ cond (eqb sum 0) 17 0 }
{
    if sum == 0 {
        return Err(Check::NoShape);
    }
    Ok(())
}
