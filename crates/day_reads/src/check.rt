// The checks of a read that goes by the days.
ghost use Rattle.std.specs.Prelude.{◌≡◌, IfOk};
ghost use Rattle.store.specs.Outcome.{failed_number};
ghost use Rattle.ledger.specs.Calls.{day_verdict};

use store::day_rows::is_run_day;
use store::lent::{Days, days_lent};
use store::refusal::Check;

#[tactic(auto, unfolding(ledger::specs::Calls::day_verdict, ledger::specs::Checks::read_check, ledger::specs::Checks::totals_in_range))]
pub fn check_day<'a>(
    settings: &'a [u8],
    days: &'a [u64],
    date: u64,
    category: u64,
) -> Result<Days<'a>, Check>
    ensures number { failed_number result ≡ (day_verdict settings.now days.now date category).number }
    ensures lent { IfOk result (λ d. (d.settings.bytes.now ≡ settings.now) × (d.entries.now ≡ days.now)) }
{
    let days = days_lent(settings, days)?;
    let dates = days.settings.date_count();
    if dates <= date {
        return Err(Check::Date);
    }
    if days.settings.category_count() <= category {
        return Err(Check::Range);
    }
    if !is_run_day(dates, category, days.entries, date) {
        return Err(Check::NotRun);
    }
    Ok(days)
}
