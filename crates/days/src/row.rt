// A category's day, counted and summed in its row of cells.
ghost use Rattle.std.specs.Prelude.{◌≡◌, ◌+◌, ◌≤◌, length, slice_index};
ghost use Rattle.ledger.specs.Store.{cell_of_entry, day_entry_of};
ghost use Rattle.entries.specs.Sums.{Summed};
ghost use Rattle.store.specs.DayRows.{entries_meant};
ghost use Rattle.days.specs.Window.{entries_in};

use entries::day::{blank_in, day_entry, fresh_in, lower_half, origin_in, tot_entry, value_in};
use metering::calendar::Stretch;
use store::day_rows::DayEntries;

fn day_of_row(row: &[u64]) -> u64
    requires { length row.now ≤ 96 }
    ensures { result ≡ day_entry_of (length row.now) (λ p. cell_of_entry (slice_index row.now p)) }
{
    let mut fresh: u32 = 0;
    let mut blanks: u32 = 0;
    let mut oldest: u32 = 65535;
    for entry in row {
        let half = lower_half(*entry);
        fresh += fresh_in(half);
        blanks += blank_in(half);
        oldest = oldest.min(origin_in(half));
    }
    day_entry(fresh as u64, blanks as u64, oldest as u64)
}

// A loop and no `sum`: the bound of each value is what keeps this within 64 bits, where `day_reads` wraps.
fn value_sum(row: &[u64]) -> u64
    requires { length row.now ≤ 96 }
    ensures { Summed (length row.now) 4294967295 (λ p. (cell_of_entry (slice_index row.now p)).value) result }
{
    let mut sum: u64 = 0;
    for entry in row {
        sum += value_in(*entry);
    }
    sum
}

// `window` is the off-peak periods.
pub fn entries_of_row(row: &[u64], window: Stretch) -> DayEntries
    requires { (length row.now ≤ 96) × (window.first + window.count ≤ length row.now) }
    ensures { entries_meant result ≡ entries_in window (length row.now) (λ p. cell_of_entry (slice_index row.now p)) }
{
    let first = window.first as usize;
    let end = first + window.count as usize;
    DayEntries {
        day: day_of_row(row),
        tot: tot_entry(value_sum(row)),
        off: value_sum(&row[first..end]),
    }
}
