// The band search (change request 2026-14): the run dates of a day type whose TOT for a category lies from one end to the other.
#![tactic(auto)]

mod checks;
mod dates;

ghost use Rattle.std.specs.Prelude.{◌≡◌};
ghost use Rattle.ledger.specs.Ledger.{answer, band_is, left};
ghost use Rattle.ledger.specs.Calls.{band_verdict, band_for, overwritten};
ghost use Rattle.store.specs.Outcome.{band_answer};
ghost use Rattle.band.specs.Search.{band_call};

use crate::checks::check_search;
use crate::dates::{Sought, list_dates};
use metering::range::day_type_valid;
use store::outcome::Band;
use store::refusal::Refusal;

#[tactic(auto, using(store::proofs::Refusals::refused_at, store::proofs::Refusals::number_some, ledger::proofs::Verdicts::left_some, crate::proofs::AnswerLaws::category_there, crate::proofs::AnswerLaws::none_answers, crate::proofs::AnswerLaws::none_listed, crate::proofs::AnswerLaws::ends_exchanged, crate::proofs::AnswerLaws::no_day_type, crate::proofs::AnswerLaws::found_answers, crate::proofs::AnswerLaws::found_listed), unfolding(ledger::specs::Calls::band_verdict))]
pub fn search_band(
    settings: &[u8],
    days: &[u64],
    category: u64,
    day_type: u64,
    least: u64,
    most: u64,
    dates: &mut [u64],
) -> Result<Band, Refusal>
    ensures answers { band_answer result dates.new ≡ answer (band_verdict settings.now days.now (band_call category day_type least most dates.old)) (band_is (band_for settings.now days.now (band_call category day_type least most dates.old))) }
    ensures dates_are { dates.new ≡ left (band_verdict settings.now days.now (band_call category day_type least most dates.old)) dates.old (overwritten (band_for settings.now days.now (band_call category day_type least most dates.old)).dates dates.old) }
{
    let days = check_search(settings, days, category)?;
    if most < least || !day_type_valid(day_type) {
        return Ok(Band {
            written: 0,
            found: 0,
        });
    }
    let room = dates.len() as u64;
    let sought = Sought {
        day_type,
        least,
        most,
    };
    let found = list_dates(days, category, sought, dates);
    Ok(Band {
        written: room.min(found),
        found,
    })
}
