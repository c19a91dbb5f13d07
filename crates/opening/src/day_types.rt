// The day types of an opening.
ghost use Rattle.std.specs.Prelude.{◌≡◌, ◌<◌, length};
ghost use Rattle.store.specs.Outcome.{failed_number, answer_of};
ghost use Rattle.ledger.specs.Checks.{day_type_number, first_failed};
ghost use Rattle.ledger.specs.Ledger.{answer, accepted};

use crate::each::check_each;
use metering::range;
use store::refusal::{Check, Refusal};

#[tactic(auto, unfolding(ledger::specs::Checks::day_type_number))]
fn check_day_type(day_types: &[u8], i: usize) -> Result<(), Check>
    requires { i < length day_types.now }
    ensures { failed_number result ≡ day_type_number day_types.now i }
{
    if !range::day_type_valid(u64::from(day_types[i])) {
        return Err(Check::DayType);
    }
    Ok(())
}

pub fn check_day_types(day_types: &[u8]) -> Result<(), Refusal>
    ensures { answer_of result ≡ answer (first_failed (day_type_number day_types.now) (length day_types.now) 0) accepted }
{
    check_each(day_types.len(), |i| check_day_type(day_types, i))
}
