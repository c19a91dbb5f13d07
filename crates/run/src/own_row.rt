// The date's own row, written into its stretch of the cells; its days follow.
ghost use Rattle.std.specs.Prelude.{◌≡◌, true, ◌<◌, ◌≤◌, length};
ghost use Rattle.ledger.specs.Store.{cells_ready, days_ready, dates_of, row_length};
ghost use Rattle.ledger.specs.Table.{tabulate};
ghost use Rattle.ledger.specs.Calls.{as_published, publish, moved_by_row};
ghost use Rattle.run_date.specs.Sums.{Bounded, row_from};

use days::keep::keep_days;
use run_date::write::write_row;
use settings::opened::Settings;
use store::rows::{row_length, row_start};

// The stretch is lent on to the row's writer.
#[tactic(auto, using(later_dates::proofs::Laws::row_there), unfolding(ledger::specs::Calls::moved_by_row))]
pub fn write_date(
    settings: Settings,
    sums: &[u64],
    counts: &[u64],
    inherited: &[u64],
    cells: &mut [u64],
    days: &mut [u64],
    date: u64,
) -> u64
    requires settings_value { (cells_ready settings.bytes.now cells.old ≡ true) × (days_ready settings.bytes.now days.old ≡ true) × (date < dates_of settings.bytes.now) }
    requires settings_in_bounds { (row_length settings.bytes.now ≤ length sums.now) × (row_length settings.bytes.now ≤ length counts.now) × (row_length settings.bytes.now ≤ length inherited.now) × Bounded settings.bytes.now sums.now counts.now }
    ensures days_after { as_published cells.new days.new ≡ publish settings.entry.bytes.now date (tabulate (row_length settings.entry.bytes.now) (row_from settings.entry.bytes.now sums.now counts.now inherited.now date)) (as_published cells.old days.old) }
    ensures value { result ≡ moved_by_row (row_length settings.entry.bytes.now) cells.old date (row_from settings.entry.bytes.now sums.now counts.now inherited.now date) }
{
    let length = row_length(settings);
    let at = row_start(length, date);
    let end = at + length as usize;
    let moved = write_row(settings, sums, counts, inherited, date, &mut cells[at..end]);
    keep_days(settings, &cells[at..end], date, days);
    moved
}
