// The reads that go by the days: totals and coverage. They look at the lent settings and days, and at no cell.
#![tactic(auto)]

ghost use Rattle.std.specs.Prelude.{◌≡◌, ◌<◌};
ghost use Rattle.ledger.specs.Ledger.{answer, totals_are, coverage_is};
ghost use Rattle.ledger.specs.Calls.{day_verdict, totals_for, coverage_for};
ghost use Rattle.ledger.specs.Store.{categories_of, dates_of};
ghost use Rattle.store.specs.Outcome.{totals_answer, coverage_answer, coverage_meant};

use crate::check::check_day;
use crate::totals::totals_of;
use store::access::entry_at;
use store::day_rows::{DayRow, coverage_of, day_index};
use store::lent::Days;
use store::outcome::{Coverage, Totals};
use store::refusal::Refusal;

mod check;
pub mod sums;
mod totals;

// At most 365 numbers are added for the year, and 7 for each figure of the week.
#[tactic(auto, using(store::proofs::Refusals::refused_at, store::proofs::Refusals::given_at, crate::proofs::Laws::place_is, crate::proofs::Laws::passed))]
pub fn read_totals(
    settings: &[u8],
    days: &[u64],
    date: u64,
    category: u64,
) -> Result<Totals, Refusal>
    ensures { totals_answer result ≡ answer (day_verdict settings.now days.now date category) (totals_are (totals_for settings.now days.now date category)) }
{
    let days = check_day(settings, days, date, category)?;
    Ok(totals_of(days, date, category))
}

// Two entries are looked up.
#[tactic(auto, using(store::proofs::Refusals::refused_at, store::proofs::Refusals::given_at, crate::proofs::Laws::place_is, crate::proofs::Laws::passed))]
pub fn read_coverage(
    settings: &[u8],
    days: &[u64],
    date: u64,
    category: u64,
) -> Result<Coverage, Refusal>
    ensures { coverage_answer result ≡ answer (day_verdict settings.now days.now date category) (coverage_is (coverage_for settings.now days.now date category)) }
{
    let days = check_day(settings, days, date, category)?;
    Ok(coverage_on(days, date, category))
}

fn coverage_on(days: Days, date: u64, category: u64) -> Coverage
    requires { (date < dates_of days.settings.bytes.now) × (category < categories_of days.settings.bytes.now) }
    ensures { coverage_meant result ≡ coverage_for days.entry.settings.bytes.now days.entry.entries.now date category }
{
    let dates = days.settings.date_count();
    let day = entry_at(days.entries, day_index(dates, category, DayRow::Day, date));
    let sum = entry_at(days.entries, day_index(dates, category, DayRow::Sums, date));
    coverage_of(day, sum)
}
