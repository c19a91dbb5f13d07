// The walk over the store's dates, by the days.
ghost use Rattle.std.specs.Prelude.{◌≡◌, cond, ◌+◌, ◌<◌, length, get_or, set};
ghost use Rattle.ledger.specs.Store.{categories_of, dates_of, day_type_of};
ghost use Rattle.ledger.specs.Table.{chosen_below};
ghost use Rattle.band.specs.Search.{is_sought, listed};

use entries::day::energy_of;
use store::access::entry_at;
use store::day_rows::{DayRow, day_index, is_run_day};
use store::lent::Days;

// TOT from `least` to `most`, both included, on dates of a day type.
#[derive(Clone, Copy)]
pub struct Sought {
    pub day_type: u64,
    pub least: u64,
    pub most: u64,
}

// The number of dates and their day types come once from the settings, whose header the walk would read again for each date.
#[tactic(auto, using(crate::proofs::Laws::other_type, crate::proofs::Laws::not_run_lem))]
fn in_band(
    days: Days,
    dates: u64,
    day_types: &[u8],
    category: u64,
    sought: Sought,
    date: u64,
) -> bool
    requires in_settings { (category < categories_of days.settings.bytes.now) × (date < dates_of days.settings.bytes.now) }
    requires from_settings { (dates ≡ dates_of days.settings.bytes.now) × (length day_types.now ≡ dates_of days.settings.bytes.now) × (get_or day_types.now date 0 ≡ day_type_of days.settings.bytes.now date) }
    ensures { result ≡ is_sought days.entry.settings.bytes.now days.entry.entries.now category sought date }
{
    let day_type = u64::from(day_types[date as usize]);
    if day_type != sought.day_type {
        return false;
    }
    if !is_run_day(dates, category, days.entries, date) {
        return false;
    }
    let tot = energy_of(entry_at(days.entries, day_index(dates, category, DayRow::Tot, date)));
    (sought.least..=sought.most).contains(&tot)
}

// A date in the band goes behind the first `found`, where the list has room; the answer is how many there are then.
fn with_date(dates: &mut [u64], found: u64, matches: bool, date: u64) -> u64
    requires { found < 800 }
    ensures dates_after { dates.new ≡ cond matches (set dates.old found date) dates.old }
    ensures value { result ≡ found + cond matches 1 0 }
{
    if !matches {
        return found;
    }
    if found < dates.len() as u64 {
        dates[found as usize] = date;
    }
    found + 1
}

// The answer is how many dates there are.
pub fn list_dates(days: Days, category: u64, sought: Sought, dates: &mut [u64]) -> u64
    requires { category < categories_of days.settings.bytes.now }
    ensures value { result ≡ length (chosen_below (dates_of days.entry.settings.bytes.now) (is_sought days.entry.settings.bytes.now days.entry.entries.now category sought)) }
    ensures dates_after { dates.new ≡ listed (chosen_below (dates_of days.entry.settings.bytes.now) (is_sought days.entry.settings.bytes.now days.entry.entries.now category sought)) dates.old }
{
    let count = days.settings.date_count();
    let day_types = days.settings.day_types();
    let mut found = 0;
    for date in 0..count {
        let matches = in_band(days, count, day_types, category, sought, date);
        found = with_date(dates, found, matches, date);
    }
    found
}
