// What a date's new row is made from.
ghost use Rattle.std.specs.Prelude.{◌≡◌, true, ℕ, ◌<◌, ◌≤◌, length, get_or};
ghost use Rattle.ledger.specs.Method.{blank};
ghost use Rattle.ledger.specs.Store.{meters_ready, readings_ready, dates_of, row_length, entry_of};
ghost use Rattle.ledger.specs.Calls.{new_row};
ghost use Rattle.run_date.specs.Sums.{Bounded, row_from};

use later_dates::predecessor::inherit;
use run_date::sums::tally_date;
use store::lent::Cells;

// The rows for sums and counts are lent empty, that for what is taken over blank. The row made from what they then hold is the date's new one.
// Three lists and no struct: each is lent on by itself, and a preview writes over the sums alone.
pub fn gather(
    cells: Cells,
    meters: &[u64],
    readings: &[u64],
    date: u64,
    sums: &mut [u64],
    counts: &mut [u64],
    inherited: &mut [u64],
)
    requires settings_value { (meters_ready cells.settings.bytes.now meters.now ≡ true) × (readings_ready cells.settings.bytes.now readings.now ≡ true) × (date < dates_of cells.settings.bytes.now) }
    requires settings_in_bounds { (row_length cells.settings.bytes.now ≤ length sums.old) × (row_length cells.settings.bytes.now ≤ length counts.old) × (row_length cells.settings.bytes.now ≤ length inherited.old) }
    requires by_index { (k : ℕ) → k < row_length cells.settings.bytes.now → (get_or sums.old k 0 ≡ 0) × (get_or counts.old k 0 ≡ 0) × (get_or inherited.old k 0 ≡ entry_of blank) }
    ensures bounded { Bounded cells.entry.settings.bytes.now sums.new counts.new }
    ensures by_index_2 { (k : ℕ) → k < row_length cells.entry.settings.bytes.now → row_from cells.entry.settings.bytes.now sums.new counts.new inherited.new date k ≡ new_row cells.entry.settings.bytes.now meters.now readings.now cells.entry.entries.now date k }
{
    tally_date(cells.settings, meters, readings, date, sums, counts);
    inherit(cells, date, inherited);
}
