// A category's row of the date that is run.
ghost use Rattle.std.specs.Prelude.{◌≡◌, ℕ, ◌+◌, ◌<◌, ◌≤◌, length, get_or};
ghost use Rattle.ledger.specs.Method.{fresh_of};
ghost use Rattle.ledger.specs.Table.{tabulate};
ghost use Rattle.ledger.specs.Calls.{row_entry, compared_entry, differing};
ghost use Rattle.run_rows.specs.Shape.{shape_at, Averaged};

use crate::tally::Tally;
use entries::cell::{Cell, entry_of};
use entries::entry;

// The entry of a category and period: its own average, the family's, or what the date takes over.
#[tactic(auto, unfolding(ledger::specs::Method::fresh_of))]
fn shape_entry(
    smart: bool,
    de_minimis: u64,
    date: u64,
    own: Tally,
    family: Tally,
    inherited: u64,
) -> u64
    requires { date < 1024 }
    ensures { result ≡ row_entry date (fresh_of smart de_minimis own.sum own.count family.sum family.count) inherited }
{
    if own.is_enough(de_minimis) {
        return entry_of(Cell::own(date, own.average(), own.count));
    }
    if smart && family.is_enough(de_minimis) {
        return entry_of(Cell::pooled(date, family.average(), family.count));
    }
    inherited
}

// Writes a category's row, whose stretch starts at `at`, and counts the cells that moved.
#[tactic(auto, using(ledger::proofs::Lists::filling_zero, ledger::proofs::Lists::fill, entries::proofs::RowLaws::unfilled, entries::proofs::RowLaws::filled_whole, entries::proofs::RowLaws::differing_zero, entries::proofs::RowLaws::differing_le, entries::proofs::RowLaws::moved_entry_le, entries::proofs::RowLaws::count_next))]
pub fn shape_row(
    smart: bool,
    de_minimis: u64,
    date: u64,
    sums: &[u64],
    counts: &[u64],
    inherited: &[u64],
    at: usize,
    family_sums: &[u64],
    family_counts: &[u64],
    row: &mut [u64],
) -> u64
    requires date_bound { (date < 1024) × (at + length row.old ≤ length sums.now) × (at + length row.old ≤ length counts.now) × (at + length row.old ≤ length inherited.now) × (length row.old ≤ length family_sums.now) × (length row.old ≤ length family_counts.now) }
    requires by_index { (p : ℕ) → p < length row.old → Averaged (get_or sums.now (at + p) 0) (get_or counts.now (at + p) 0) }
    requires by_index_2 { (p : ℕ) → p < length row.old → Averaged (get_or family_sums.now p 0) (get_or family_counts.now p 0) }
    ensures row_after { row.new ≡ tabulate (length row.old) (shape_at smart de_minimis date sums.now counts.now inherited.now at family_sums.now family_counts.now) }
    ensures value { result ≡ differing (length row.old) (λ p. compared_entry (get_or row.old p 0)) (shape_at smart de_minimis date sums.now counts.now inherited.now at family_sums.now family_counts.now) }
{
    let mut moved: u64 = 0;
    for p in 0..row.len() {
        let k = at + p;
        let old = row[p];
        let own = Tally {
            sum: sums[k],
            count: counts[k],
        };
        let family = Tally {
            sum: family_sums[p],
            count: family_counts[p],
        };
        let new = shape_entry(smart, de_minimis, date, own, family, inherited[k]);
        moved += entry::moved_entry(entry::compared_entry(old), new);
        row[p] = new;
    }
    moved
}
