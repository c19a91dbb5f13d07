// One category's cells: where they stand in the lent part, and what they say.
ghost use Rattle.std.specs.Prelude.{◌≡◌, suc, ◌+◌, ◌*◌, ◌<◌, ◌^◌};
ghost use Rattle.store.specs.Column.{column_of, beside, place_in, cell_in, run_in, Reaches, CellRead};

use crate::access::entry_at;
use crate::run_mark::is_run;
use entries::cell::{Cell, cell_of_entry};
use settings::opened::Settings;

// One category among `categories`, each with `periods` cells a date.
#[derive(Clone, Copy)]
pub struct Column {
    pub categories: u64,
    pub periods: u64,
    pub category: u64,
}

pub fn column_of(settings: Settings, category: u64) -> Column
    ensures { result ≡ column_of settings.entry.bytes.now category }
{
    Column {
        categories: settings.category_count(),
        periods: settings.period_count(),
        category,
    }
}

// Another category's column of the same store.
pub fn beside(column: Column, category: u64) -> Column
    ensures { result ≡ beside column category }
{
    Column { category, ..column }
}

// The place of the category's first cell of the date.
#[tactic(auto, unfolding(ledger::specs::Store::cell_index))]
fn first_cell(column: Column, date: u64) -> u64
    requires { (column.category < column.categories) × (date * (column.categories * column.periods) + column.categories * column.periods < 2 ^ 64) }
    ensures { result ≡ place_in column date 1 }
{
    date * (column.categories * column.periods) + column.category * column.periods
}

// The category's cell of the period that comes after `k` others.
#[tactic(auto, unfolding(ledger::specs::Store::cell_of_entry))]
pub fn cell_at(cells: &[u64], column: Column, date: u64, k: u64) -> Cell
    requires { Reaches cells.now column date × (k < column.periods) }
    ensures { CellRead (cell_in column cells.now date (suc k)) result }
{
    cell_of_entry(entry_at(cells, first_cell(column, date) + k))
}

// Whether the date is run.
pub fn ran_on(cells: &[u64], column: Column, date: u64) -> bool
    requires { Reaches cells.now column date }
    ensures { result ≡ run_in column cells.now date }
{
    is_run(column.categories * column.periods, cells, date)
}
