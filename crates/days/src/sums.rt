// Sums raised by a difference, modulo 2^64: a count that goes down is added as its complement.
ghost use Rattle.std.specs.Prelude.{◌≡◌, ◌+◌, ◌≤◌, length, slice_index};
ghost use Rattle.ledger.specs.Table.{tabulate};
ghost use Rattle.ledger.specs.Calls.{wrapping_sum, raised};

#[tactic(auto, unfolding(ledger::specs::Calls::wrapping_sum))]
fn raise_all(sums: &mut [u64], by: u64)
    ensures { sums.new ≡ tabulate (length sums.old) (λ k. wrapping_sum (slice_index sums.old k) by) }
{
    for sum in sums.iter_mut() {
        *sum = sum.wrapping_add(by);
    }
}

// `count` sums from `first` on.
#[tactic(auto, using(crate::proofs::Laws::raised_is))]
pub fn raise(days: &mut [u64], first: u64, count: u64, by: u64)
    requires { first + count ≤ length days.old }
    ensures { days.new ≡ raised by count first days.old }
{
    let start = first as usize;
    let end = start + count as usize;
    raise_all(&mut days[start..end], by);
}
