// Sums of a category's entries over a date and those before it: one stretch of a row, added modulo 2^64.
ghost use Rattle.std.specs.Prelude.{◌≡◌, ◌+◌, ◌%◌, ◌<◌, ◌≤◌, length, slice_index};
ghost use Rattle.metering.specs.Sum.{sum_below};
ghost use Rattle.ledger.specs.Calls.{stretch_sum, dates_sum};

fn sum_all(entries: &[u64]) -> u64
    ensures { result ≡ sum_below (length entries.now) (λ k. slice_index entries.now k) % 18446744073709551616 }
{
    entries
        .iter()
        .fold(0, |sum, entry| sum.wrapping_add(*entry))
}

fn stretch_sum(days: &[u64], first: u64, count: u64) -> u64
    requires { first + count ≤ length days.now }
    ensures { result ≡ stretch_sum count first days.now }
{
    let start = first as usize;
    let end = start + count as usize;
    sum_all(&days[start..end])
}

// Over the date, whose entry stands at `at`, and up to `most` - 1 dates before it.
#[tactic(auto, unfolding(ledger::specs::Calls::dates_sum))]
pub fn dates_sum(days: &[u64], at: u64, date: u64, most: u64) -> u64
    requires { (date < 800) × (date ≤ at) × (at < length days.now) }
    ensures { result ≡ dates_sum most date at days.now }
{
    // Not the smaller of both: a sum over a constant number of dates is faster.
    let dates = date + 1;
    if dates < most {
        return stretch_sum(days, at + 1 - dates, dates);
    }
    stretch_sum(days, at + 1 - most, most)
}
