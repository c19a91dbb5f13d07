// The sizes of an opening, and how long its parts have to be.
ghost use Rattle.std.specs.Prelude.{◌≡◌, true, []};
ghost use Rattle.settings.specs.Opening.{opening_call};
ghost use Rattle.ledger.specs.Checks.{sizes_valid};
ghost use Rattle.ledger.specs.Ledger.{least_lengths};
ghost use Rattle.opening.specs.Lengths.{lengths_meant, any_below_least};

use metering::{calendar, range};
use settings::sizes::{cells_length, days_length, meters_length, readings_length, settings_length};
use settings::writing::OpeningTerms;

// One length for each part.
#[derive(Clone, Copy, Debug, PartialEq, Eq)]
pub struct Lengths {
    pub settings: u64,
    pub meters: u64,
    pub readings: u64,
    pub cells: u64,
    pub days: u64,
}

// Windows are no part of it.
#[tactic(auto, unfolding(ledger::specs::Checks::sizes_valid))]
pub fn sizes_valid(terms: OpeningTerms, category_records: &[u8], day_types: &[u8]) -> bool
    ensures { result ≡ sizes_valid (opening_call terms [] category_records.now day_types.now) }
{
    calendar::duration_known(terms.duration)
        && range::meters_in_range(terms.meters)
        && category_records.len() % 8 == 0
        && range::categories_in_range((category_records.len() / 8) as u64)
        && range::dates_in_range(day_types.len() as u64)
}

// What an opening of these sizes asks of each part.
#[tactic(auto, using(crate::proofs::Laws::sized))]
pub fn least_lengths(terms: OpeningTerms, category_records: &[u8], day_types: &[u8]) -> Lengths
    requires { sizes_valid (opening_call terms [] category_records.now day_types.now) ≡ true }
    ensures { lengths_meant result ≡ least_lengths (opening_call terms [] category_records.now day_types.now) }
{
    let periods = calendar::periods_per_day(terms.duration);
    let categories = (category_records.len() / 8) as u64;
    let dates = day_types.len() as u64;
    Lengths {
        settings: settings_length(categories, dates),
        meters: meters_length(terms.meters),
        readings: readings_length(terms.meters, dates, periods),
        cells: cells_length(categories, dates, periods),
        days: days_length(categories, dates),
    }
}

#[tactic(auto, unfolding(crate::specs::Lengths::any_below_least))]
pub fn too_short(lent: Lengths, least: Lengths) -> bool
    ensures { result ≡ any_below_least (lengths_meant lent) (lengths_meant least) }
{
    lent.settings < least.settings
        || lent.meters < least.meters
        || lent.readings < least.readings
        || lent.cells < least.cells
        || lent.days < least.days
}
