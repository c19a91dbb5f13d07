// Where a category's days stand, four rows of entries for the dates; and what they say of a date.
ghost use Rattle.std.specs.Prelude.{◌≡◌, ◌<◌, ◌≤◌, length};
ghost use Rattle.ledger.specs.Store.{day_row, day_index, is_run_day, coverage_of};
ghost use Rattle.store.specs.DayRows.{row_meant};
ghost use Rattle.store.specs.Outcome.{coverage_meant};

use crate::access::entry_at;
use crate::outcome::Coverage;

// The rows of a category, in the order in which they stand.
#[derive(Clone, Copy, Debug, PartialEq, Eq)]
pub enum DayRow {
    Day,
    Sums,
    Tot,
    Off,
}

// What a date has in them beside its sums.
#[derive(Clone, Copy)]
pub struct DayEntries {
    pub day: u64,
    pub tot: u64,
    pub off: u64,
}

#[tactic(auto, unfolding(ledger::specs::Store::day_index))]
pub fn day_index(dates: u64, category: u64, row: DayRow, date: u64) -> u64
    requires { (dates ≤ 800) × (category < 64) × (date < dates) }
    ensures { result ≡ day_index dates category (row_meant row) date }
{
    (4 * category + row as u64) * dates + date
}

// Whether the date is run, by the days alone.
#[tactic(auto, unfolding(ledger::specs::Store::is_run_day))]
pub fn is_run_day(dates: u64, category: u64, days: &[u64], date: u64) -> bool
    requires { (dates ≤ 800) × (category < 64) × (date < dates) × (day_index dates category day_row date < length days.now) }
    ensures { result ≡ is_run_day dates category days.now date }
{
    entry_at(days, day_index(dates, category, DayRow::Day, date)) != 0
}

#[tactic(auto, unfolding(ledger::specs::Store::coverage_of))]
pub fn coverage_of(day: u64, sum: u64) -> Coverage
    ensures { coverage_meant result ≡ coverage_of day sum }
{
    Coverage {
        fresh7: sum % 65536,
        blanks7: sum / 65536 % 65536,
        fresh365: sum / 4294967296 % 65536,
        blanks365: sum / 281474976710656 % 65536,
        oldest: day / 4294967296 % 65536,
    }
}
