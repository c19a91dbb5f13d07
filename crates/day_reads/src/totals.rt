// All figures of a run date and category.
ghost use Rattle.std.specs.Prelude.{◌≡◌, ◌<◌};
ghost use Rattle.metering.specs.Average.{annual};
ghost use Rattle.ledger.specs.Store.{categories_of, dates_of, peak_of, totals_of};
ghost use Rattle.ledger.specs.Calls.{totals_for};
ghost use Rattle.store.specs.Outcome.{totals_meant};
ghost use Rattle.store.specs.DayRows.{entries_meant};

use crate::sums::dates_sum;
use entries::day::{day_blanks, day_fresh, energy_of, run_dates_of};
use metering::average::annual_figure;
use store::access::entry_at;
use store::day_rows::{DayEntries, DayRow, day_index};
use store::lent::Days;
use store::outcome::Totals;

// On a store that these calls did not make OFF may be above TOT.
#[tactic(auto, unfolding(ledger::specs::Store::peak_of))]
fn peak_of(number: u64, tot: u64, off: u64) -> u64
    ensures { result ≡ peak_of number tot off }
{
    if number == 0 {
        return 0;
    }
    tot.saturating_sub(off)
}

// And no date may count as run.
#[tactic(auto, using(crate::proofs::Laws::annual_none))]
fn annual_of(sum: u64, days: u64) -> u64
    requires { sum < 281474976710656 }
    ensures { result ≡ annual sum days }
{
    if days == 0 {
        return 0;
    }
    annual_figure(sum, days)
}

// From a date's entries, and from sums of them over a week and a year. The year has no OFF.
#[tactic(auto, unfolding(ledger::specs::Store::totals_of))]
fn totals_from(number: u64, entries: DayEntries, week: u64, off_week: u64, year: u64) -> Totals
    ensures { totals_meant result ≡ totals_of number (entries_meant entries) week off_week year }
{
    let tot = energy_of(entries.tot);
    let off = energy_of(entries.off);
    let tot7 = energy_of(week);
    let off7 = energy_of(off_week);
    let days = run_dates_of(year);
    Totals {
        tot,
        off,
        peak: peak_of(number, tot, off),
        tot7,
        off7,
        peak7: peak_of(number, tot7, off7),
        days7: run_dates_of(week),
        ann: annual_of(energy_of(year), days),
        days,
        fresh: day_fresh(entries.day),
        blanks: day_blanks(entries.day),
    }
}

pub fn totals_of(days: Days, date: u64, category: u64) -> Totals
    requires { (date < dates_of days.settings.bytes.now) × (category < categories_of days.settings.bytes.now) }
    ensures { totals_meant result ≡ totals_for days.entry.settings.bytes.now days.entry.entries.now date category }
{
    let dates = days.settings.date_count();
    let tot_at = day_index(dates, category, DayRow::Tot, date);
    let off_at = day_index(dates, category, DayRow::Off, date);
    let entries = DayEntries {
        day: entry_at(days.entries, day_index(dates, category, DayRow::Day, date)),
        tot: entry_at(days.entries, tot_at),
        off: entry_at(days.entries, off_at),
    };
    let week = dates_sum(days.entries, tot_at, date, 7);
    let off_week = dates_sum(days.entries, off_at, date, 7);
    let year = dates_sum(days.entries, tot_at, date, 365);
    totals_from(
        days.settings.window(category),
        entries,
        week,
        off_week,
        year,
    )
}
