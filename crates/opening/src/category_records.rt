// The category records of an opening: each good, with so many windows to name, and none with the key of an earlier one.
ghost use Rattle.std.specs.Prelude.{◌≡◌, ◌+◌, ◌*◌, ◌/◌, ◌≤◌, length};
ghost use Rattle.store.specs.Outcome.{failed_number, answer_of};
ghost use Rattle.ledger.specs.Checks.{same_key, any_below, category_number, first_failed};
ghost use Rattle.ledger.specs.Ledger.{answer, accepted};

use crate::each::check_each;
use metering::range;
use store::refusal::{Check, Refusal};

#[tactic(auto, unfolding(ledger::specs::Checks::same_key))]
fn same_key(records: &[u8], i: usize, k: usize) -> bool
    requires { (8 * i + 8 ≤ length records.now) × (8 * k + 8 ≤ length records.now) }
    ensures { result ≡ same_key records.now i k }
{
    let a = 8 * i;
    let b = 8 * k;
    records[a..a + 5] == records[b..b + 5]
}

// Whether an earlier record has the key of record i.
fn key_taken(records: &[u8], i: usize) -> bool
    requires { 8 * i + 8 ≤ length records.now }
    ensures { result ≡ any_below i (λ k. same_key records.now k i) }
{
    (0..i).any(|k| same_key(records, k, i))
}

#[tactic(auto, unfolding(ledger::specs::Checks::category_number, ledger::specs::Checks::record_at))]
fn check_category(windows: u64, records: &[u8], i: usize) -> Result<(), Check>
    requires { 8 * i + 8 ≤ length records.now }
    ensures { failed_number result ≡ category_number windows records.now i }
{
    let start = 8 * i;
    let record = &records[start..start + 8];
    if !range::category_valid(record, windows) || key_taken(records, i) {
        return Err(Check::CategoryRecord);
    }
    Ok(())
}

pub fn check_categories(windows: u64, records: &[u8]) -> Result<(), Refusal>
    ensures { answer_of result ≡ answer (first_failed (category_number windows records.now) (length records.now / 8) 0) accepted }
{
    check_each(records.len() / 8, |i| check_category(windows, records, i))
}
