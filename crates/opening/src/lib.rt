// Opening: the sizes, the windows, the category records and the day types are checked and kept, and the rest of the store is emptied.
#![tactic(auto)]

mod category_records;
mod day_types;
mod each;
mod sizes;
mod windows;

ghost use Rattle.std.specs.Prelude.{◌≡◌};
ghost use Rattle.store.specs.Outcome.{answer_of};
ghost use Rattle.settings.specs.Opening.{opening_call};
ghost use Rattle.opening.specs.Lengths.{lengths_meant};
ghost use Rattle.ledger.specs.Calls.{OpeningMeets};
ghost use Rattle.ledger.specs.Checks.{opening_check};
ghost use Rattle.ledger.specs.Ledger.{any_short, answer, accepted};

use crate::category_records::check_categories;
use crate::day_types::check_day_types;
use crate::sizes::{Lengths, least_lengths, sizes_valid, too_short};
use crate::windows::check_windows;
use settings::writing::{OpeningTerms, write_settings};
use store::refusal::{Check, Refusal};
use store::writing::empty;

// The checks, on the lengths of the parts lent: 3, 19, 4, 5, 1.
// What is opened goes on as C passes it: a struct of it would be made here to be taken apart by each check.
#[tactic(auto, using(crate::proofs::Laws::pieces))]
fn check_opening(
    lent: Lengths,
    terms: OpeningTerms,
    windows: &[u64],
    category_records: &[u8],
    day_types: &[u8],
) -> Result<(), Refusal>
    ensures { answer_of result ≡ answer (opening_check (opening_call terms windows.now category_records.now day_types.now) (any_short (opening_call terms windows.now category_records.now day_types.now) (lengths_meant lent))) accepted }
{
    if !sizes_valid(terms, category_records, day_types) {
        return Err(Refusal::from(Check::Sizes));
    }
    check_windows(terms.duration, windows)?;
    check_categories((windows.len() / 2) as u64, category_records)?;
    check_day_types(day_types)?;
    if too_short(lent, least_lengths(terms, category_records, day_types)) {
        return Err(Refusal::from(Check::Unready));
    }
    Ok(())
}

// Nine arguments: the engine's public call, which may not change.
#[tactic(auto, using(crate::proofs::Laws::opening_refused))]
pub fn open(
    settings: &mut [u8],
    meters: &mut [u64],
    readings: &mut [u64],
    cells: &mut [u64],
    days: &mut [u64],
    terms: OpeningTerms,
    windows: &[u64],
    category_records: &[u8],
    day_types: &[u8],
) -> Result<(), Refusal>
    ensures { OpeningMeets settings.old meters.old readings.old cells.old days.old (opening_call terms windows.now category_records.now day_types.now) (answer_of result) settings.new meters.new readings.new cells.new days.new }
{
    let lent = Lengths {
        settings: settings.len() as u64,
        meters: meters.len() as u64,
        readings: readings.len() as u64,
        cells: cells.len() as u64,
        days: days.len() as u64,
    };
    check_opening(lent, terms, windows, category_records, day_types)?;
    let least = least_lengths(terms, category_records, day_types);
    write_settings(settings, terms, windows, category_records, day_types);
    empty(meters, least.meters);
    empty(readings, least.readings);
    empty(cells, least.cells);
    empty(days, least.days);
    Ok(())
}
