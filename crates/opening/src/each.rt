// A check of many things, one after the other.
ghost use Rattle.std.specs.Prelude.{◌≡◌, ℕ, ◌<◌};
ghost use Rattle.store.specs.Outcome.{answer_of};
ghost use Rattle.ledger.specs.Checks.{first_failed};
ghost use Rattle.ledger.specs.Ledger.{answer, accepted};
ghost use Rattle.opening.specs.Each.{Numbers};

use store::refusal::{Check, Refusal};

// The first of `count` things that fails its check refuses, by its place: thing i has place i + 1.
pub fn check_each<F: Fn(usize) -> Result<(), Check>>(
    count: usize,
    check_at: F,
) -> Result<(), Refusal>
    requires { (i : ℕ) → i < count → F.pre check_at i }
    ensures { (number : ℕ → ℕ) → Numbers (F.post check_at) count number → answer_of result ≡ answer (first_failed number count 0) accepted }
{
    for i in 0..count {
        if let Err(check) = check_at(i) {
            return Err(Refusal {
                check,
                place: (i + 1) as u64,
            });
        }
    }
    Ok(())
}
