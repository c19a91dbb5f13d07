// A date's new entries, and the sums in which its counts are.
ghost use Rattle.std.specs.Prelude.{◌≡◌, ◌<◌, length};
ghost use Rattle.ledger.specs.Calls.{raised_sums, placed, put_day};
ghost use Rattle.store.specs.DayRows.{entries_meant, RowsFit};

use crate::sums::raise;
use entries::day::day_counts;
use store::access::{entry_at, put_entry};
use store::day_rows::{DayEntries, DayRow, day_index};

// Week and year, by the difference of the counts.
#[tactic(auto, unfolding(ledger::specs::Store::day_index, ledger::specs::Calls::raised_sums, ledger::specs::Calls::wrapping_difference, ledger::specs::Calls::wrapping_sum))]
fn raise_sums(days: &mut [u64], dates: u64, category: u64, date: u64, old: u64, new: u64)
    requires { RowsFit dates category date (length days.old) × (old < 4294967296) × (new < 4294967296) }
    ensures { days.new ≡ raised_sums dates category date old new days.old }
{
    let first = day_index(dates, category, DayRow::Sums, date);
    let left = dates - date;
    raise(days, first, left.min(7), new.wrapping_sub(old));
    raise(
        days,
        first,
        left.min(365),
        (4294967296 * new).wrapping_sub(4294967296 * old),
    );
}

#[tactic(auto, unfolding(ledger::specs::Store::day_index, ledger::specs::Calls::placed))]
fn place(days: &mut [u64], dates: u64, category: u64, date: u64, entries: DayEntries)
    requires { RowsFit dates category date (length days.old) }
    ensures { days.new ≡ placed dates category date (entries_meant entries) days.old }
{
    put_entry(
        days,
        day_index(dates, category, DayRow::Day, date),
        entries.day,
    );
    put_entry(
        days,
        day_index(dates, category, DayRow::Tot, date),
        entries.tot,
    );
    put_entry(
        days,
        day_index(dates, category, DayRow::Off, date),
        entries.off,
    );
}

#[tactic(auto, unfolding(ledger::specs::Store::day_index, ledger::specs::Calls::put_day, ledger::specs::Store::counts_of))]
pub fn put_day(days: &mut [u64], dates: u64, category: u64, date: u64, entries: DayEntries)
    requires { RowsFit dates category date (length days.old) }
    ensures { days.new ≡ put_day dates category date (entries_meant entries) days.old }
{
    let old = day_counts(entry_at(&days[..], day_index(dates, category, DayRow::Day, date)));
    let new = day_counts(entries.day);
    place(days, dates, category, date, entries);
    if old == new {
        return;
    }
    raise_sums(days, dates, category, date, old, new);
}
