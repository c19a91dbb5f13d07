// The walk over later dates without a write: how many cells are to move.
ghost use Rattle.std.specs.Prelude.{◌≡◌, true, [], ◌-◌, ◌<◌, ◌≤◌, length, get_or};
ghost use Rattle.ledger.specs.Store.{cells_ready, dates_of, row_length};
ghost use Rattle.ledger.specs.Calls.{count_only, as_published, carry_on};
ghost use Rattle.later_dates.specs.Walk.{Followed};

use crate::row::row_of;
use crate::walk::{Rows, walk};
use later_rows::{copy_row, follow_row};
use settings::opened::Settings;
use store::lent::Cells;

// Each row follows in a copy, by the code that a run follows it by, and the cells stand.
#[derive(Drop)]
struct Copied<'a, 'b> {
    cells: &'a [u64],
    copy: &'b mut [u64],
}

impl Rows for Copied<'_, '_> {
    ghost place = { count_only };

    ghost published = { λ s. as_published s.cells.now [] };

    ghost fit = { λ settings s. (cells_ready settings s.cells.now ≡ true) × (row_length settings ≤ length s.copy.now) };

    ghost parts = { λ s. (s.copy.ghost_name, s.copy.ghost_name) };

    fn cells(&self) -> &[u64] {
        self.cells
    }

    fn follow(&mut self, settings: Settings, date: u64, inherited: &mut [u64]) -> u64 {
        let cells = Cells {
            settings,
            entries: self.cells,
        };
        let row = row_of(cells, date);
        copy_row(row, self.copy);
        follow_row(&mut self.copy[..row.len()], inherited)
    }

    ghost enough = { λ settings s fit. fit.0 };
}

// Answers what `write_later` answers, and leaves the cells as they are. `copy` is lent for one row after the other.
pub fn count_later(
    cells: Cells,
    day: u64,
    first: u64,
    moved: u64,
    inherited: &mut [u64],
    copy: &mut [u64],
) -> u64
    requires { (first ≤ dates_of cells.settings.bytes.now) × (moved ≤ 6144) × (row_length cells.settings.bytes.now ≤ length inherited.old) × (row_length cells.settings.bytes.now ≤ length copy.old) }
    ensures { result ≡ (carry_on count_only cells.entry.settings.bytes.now day (dates_of cells.entry.settings.bytes.now - first) (λ k. get_or inherited.old k 0) first (as_published cells.entry.entries.now []) moved).moved }
{
    walk(
        &mut Copied {
            cells: cells.entries,
            copy,
        },
        cells.settings,
        day,
        first,
        moved,
        inherited,
    )
}
