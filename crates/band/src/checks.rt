// The checks of a band search.
ghost use Rattle.std.specs.Prelude.{◌≡◌, IfOk};
ghost use Rattle.ledger.specs.Checks.{band_check, totals_in_range};
ghost use Rattle.ledger.specs.Store.{categories_of};
ghost use Rattle.ledger.specs.Calls.{days_unready};
ghost use Rattle.store.specs.Outcome.{failed_number};

use store::lent::{Days, days_lent};
use store::refusal::Check;

// 1 and 15.
#[tactic(auto, unfolding(ledger::specs::Checks::band_check, ledger::specs::Checks::totals_in_range))]
pub fn check_search<'a>(
    settings: &'a [u8],
    days: &'a [u64],
    category: u64,
) -> Result<Days<'a>, Check>
    ensures number { failed_number result ≡ band_check (days_unready settings.now days.now) (totals_in_range (categories_of settings.now) category) }
    ensures lent { IfOk result (λ d. (d.settings.bytes.now ≡ settings.now) × (d.entries.now ≡ days.now)) }
{
    let days = days_lent(settings, days)?;
    if days.settings.category_count() <= category {
        return Err(Check::Range);
    }
    Ok(days)
}
