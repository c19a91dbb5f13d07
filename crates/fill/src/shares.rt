// What each period gets: its whole part, and one of the Wh left over where its remainder is among the largest.
ghost use Rattle.std.specs.Prelude.{◌-◌, ◌≤◌, ◌≡◌, ◌&&◌, ◌||◌, cond, eqb, ltb, length};
ghost use Rattle.ledger.specs.Fill.{filled_values};
ghost use Rattle.ledger.specs.Table.{filling};
ghost use Rattle.ledger.specs.Calls.{overwritten};
ghost use Rattle.entries.specs.Sums.{Figure};
ghost use Rattle.fill.specs.Sharing.{weight_in, MayShare, MayHandOut, handed_out};

use crate::division::{Part, divide};
use crate::threshold::{reaching, threshold};
use store::column::Column;

// One for a remainder above the threshold, and for one equal to it as long as there is one to spare.
fn extra(remainder: u64, threshold: u64, spare: u64) -> u64
    ensures { Figure 1 (cond (ltb threshold remainder || (eqb remainder threshold && ltb 0 spare)) 1 0) result }
{
    u64::from(threshold < remainder || remainder == threshold && 0 < spare)
}

// How many are to spare after it.
fn spare_after(remainder: u64, threshold: u64, spare: u64) -> u64
    ensures { result ≡ spare - cond (eqb remainder threshold) 1 0 }
{
    spare.saturating_sub(u64::from(remainder == threshold))
}

// The first `spare` of the remainders equal to the threshold get one.
#[tactic(auto, using(ledger::proofs::Lists::filling_zero, ledger::proofs::Lists::fill, crate::proofs::SharingLaws::none_spared, crate::proofs::SharingLaws::next_spared, crate::proofs::SharingLaws::next_handed))]
fn hand_out(parts: &[Part], threshold: u64, spare: u64, filled: &mut [u64])
    requires { MayHandOut parts.now (length filled.old) }
    ensures { filled.new ≡ filling (length parts.now) (handed_out parts.now threshold spare) filled.old }
{
    let mut rest = spare;
    for (k, part) in parts.iter().enumerate() {
        filled[k] = part.whole + extra(part.remainder, threshold, rest);
        rest = spare_after(part.remainder, threshold, rest);
    }
}

// `sum` is that of the missing periods' values, and not 0. The cells, their column and the date go on one by one, as `store::column` takes them.
pub fn share_out(
    cells: &[u64],
    column: Column,
    date: u64,
    missing: &[u8],
    sum: u64,
    advance: u64,
    filled: &mut [u64],
)
    requires { MayShare cells.now column date missing.now sum advance × (column.periods ≤ length filled.old) }
    ensures { filled.new ≡ overwritten (filled_values column.periods (weight_in column cells.now date missing.now) advance) filled.old }
{
    let mut places = [Part {
        whole: 0,
        remainder: 0,
    }; 96];
    let parts = &mut places[..column.periods as usize];
    let left = divide(cells, column, date, missing, sum, advance, parts);
    let limit = threshold(parts, sum, left);
    let above = reaching(parts, limit + 1);
    hand_out(parts, limit, left - above, filled);
}
