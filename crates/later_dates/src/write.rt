// The walk that writes.
ghost use Rattle.std.specs.Prelude.{◌≡◌, true, ◌-◌, ◌<◌, ◌≤◌, length, get_or};
ghost use Rattle.ledger.specs.Store.{cells_ready, days_ready, dates_of, row_length};
ghost use Rattle.ledger.specs.Calls.{publish, as_published, as_ran, carry_on};
ghost use Rattle.later_dates.specs.Walk.{Followed};

use crate::walk::{Rows, walk};
use days::keep::keep_days;
use later_rows::follow_row;
use settings::opened::Settings;
use store::rows::{row_length, row_start};

// The days follow where anything moved.
#[tactic(auto, using(crate::proofs::Laws::row_there))]
fn write_row(
    settings: Settings,
    cells: &mut [u64],
    days: &mut [u64],
    date: u64,
    inherited: &mut [u64],
) -> u64
    requires { (cells_ready settings.bytes.now cells.old ≡ true) × (days_ready settings.bytes.now days.old ≡ true) × (date < dates_of settings.bytes.now) × (row_length settings.bytes.now ≤ length inherited.old) }
    ensures { Followed publish settings.entry.bytes.now date inherited.old (as_published cells.old days.old) inherited.new (as_published cells.new days.new) result }
{
    let length = row_length(settings);
    let at = row_start(length, date);
    let end = at + length as usize;
    let moved = follow_row(&mut cells[at..end], inherited);
    if moved == 0 {
        return moved;
    }
    keep_days(settings, &cells[at..end], date, days);
    moved
}

// Each row follows in its place.
#[derive(Drop)]
struct Written<'a> {
    cells: &'a mut [u64],
    days: &'a mut [u64],
}

impl Rows for Written<'_> {
    ghost place = { publish };

    ghost published = { λ s. as_published s.cells.now s.days.now };

    ghost fit = { λ settings s. (cells_ready settings s.cells.now ≡ true) × (days_ready settings s.days.now ≡ true) };

    ghost parts = { λ s. (s.cells.ghost_name, s.days.ghost_name) };

    fn cells(&self) -> &[u64] {
        &self.cells[..]
    }

    #[tactic(auto, unfolding(ledger::specs::Store::cells_ready, ledger::specs::Store::days_ready))]
    fn follow(&mut self, settings: Settings, date: u64, inherited: &mut [u64]) -> u64 {
        write_row(settings, self.cells, self.days, date, inherited)
    }

    ghost enough = { λ settings s fit. fit.0 };
}

// Starts at `first` with what it takes over, and adds the cells that moved to `moved`.
pub fn write_later(
    settings: Settings,
    cells: &mut [u64],
    days: &mut [u64],
    day: u64,
    first: u64,
    moved: u64,
    inherited: &mut [u64],
) -> u64
    requires settings_value { (cells_ready settings.bytes.now cells.old ≡ true) × (days_ready settings.bytes.now days.old ≡ true) }
    requires first_bound { (first ≤ dates_of settings.bytes.now) × (moved ≤ 6144) × (row_length settings.bytes.now ≤ length inherited.old) }
    ensures { as_ran cells.new days.new result ≡ carry_on publish settings.entry.bytes.now day (dates_of settings.entry.bytes.now - first) (λ k. get_or inherited.old k 0) first (as_published cells.old days.old) moved }
{
    walk(
        &mut Written { cells, days },
        settings,
        day,
        first,
        moved,
        inherited,
    )
}
