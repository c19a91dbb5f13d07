// The windows of an opening, by their minutes: start, end, start, end and so on.
ghost use Rattle.std.specs.Prelude.{◌≡◌, ◌+◌, ◌*◌, ◌/◌, ◌<◌, length};
ghost use Rattle.store.specs.Outcome.{failed_number, answer_of};
ghost use Rattle.ledger.specs.Checks.{window_number, first_failed};
ghost use Rattle.ledger.specs.Ledger.{answer, accepted};

use crate::each::check_each;
use metering::calendar;
use store::refusal::{Check, Refusal};

#[tactic(auto, unfolding(ledger::specs::Checks::window_number))]
fn check_window(duration: u64, windows: &[u64], i: usize) -> Result<(), Check>
    requires { (0 < duration) × (2 * i < length windows.now) }
    ensures { failed_number result ≡ window_number duration windows.now i }
{
    let start = 2 * i;
    let end = start + 1;
    if 8 <= i
        || windows.len() <= end
        || !calendar::window_valid(duration, windows[start], windows[end])
    {
        return Err(Check::Window);
    }
    Ok(())
}

// A last minute that is left over begins a window too.
pub fn check_windows(duration: u64, windows: &[u64]) -> Result<(), Refusal>
    requires { 0 < duration }
    ensures { answer_of result ≡ answer (first_failed (window_number duration windows.now) ((length windows.now + 1) / 2) 0) accepted }
{
    check_each(
        windows.len().div_ceil(2),
        |i| check_window(duration, windows, i),
    )
}
