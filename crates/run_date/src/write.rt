// The date's own row, category by category.
ghost use Rattle.std.specs.Prelude.{◌≡◌, ◌+◌, ◌<◌, ◌≤◌, length, get_or};
ghost use Rattle.ledger.specs.Store.{categories_of, periods_of, row_length};
ghost use Rattle.ledger.specs.Table.{tabulate};
ghost use Rattle.ledger.specs.Calls.{compared_entry, differing};
ghost use Rattle.run_date.specs.Sums.{Bounded, Pooled, entry_from, row_from};

use run_rows::shape::shape_row;
use run_rows::sums::add_row;
use settings::opened::Settings;
use store::rows::category_start;

// A date's sums and counts, for whose averages entries have room.
#[derive(Clone, Copy)]
struct DateTally<'a> {
    settings: Settings<'a>,
    sums: &'a [u64],
    counts: &'a [u64],
    ghost room: { (row_length settings.bytes.now ≤ length sums.now) × (row_length settings.bytes.now ≤ length counts.now) },
    ghost bounded: { Bounded settings.bytes.now sums.now counts.now },
}

impl DateTally<'_> {
    // Adds the rows of category b where it is of the family.
    #[tactic(auto, using(ledger::proofs::Ready::ready, crate::proofs::Laws::start_asks, crate::proofs::Laws::pooled_skip, crate::proofs::Laws::pooled_add, crate::proofs::Laws::counts_small, crate::proofs::Laws::sums_small, crate::proofs::Laws::member_asks))]
    fn add_member(&self, category: u64, b: u64, family_sums: &mut [u64], family_counts: &mut [u64])
        requires settings_in_bounds { (periods_of self.now.settings.bytes.now ≤ length family_sums.old) × (periods_of self.now.settings.bytes.now ≤ length family_counts.old) }
        requires category_bound { (category < categories_of self.now.settings.bytes.now) × (b < categories_of self.now.settings.bytes.now) }
        requires pooled { (Pooled self.now.settings.bytes.now self.now.sums.now category b family_sums.old) × (Pooled self.now.settings.bytes.now self.now.counts.now category b family_counts.old) }
        ensures { (Pooled self.now.settings.bytes.now self.now.sums.now category (b + 1) family_sums.new) × (Pooled self.now.settings.bytes.now self.now.counts.now category (b + 1) family_counts.new) }
    {
        if !self.settings.same_family(category, b) {
            return;
        }
        let periods = self.settings.period_count();
        let at = category_start(b, periods);
        add_row(self.sums, at as usize, periods as usize, family_sums);
        add_row(self.counts, at as usize, periods as usize, family_counts);
    }

    fn pool_family(&self, category: u64, family_sums: &mut [u64], family_counts: &mut [u64])
        requires settings_in_bounds { (periods_of self.now.settings.bytes.now ≤ length family_sums.old) × (periods_of self.now.settings.bytes.now ≤ length family_counts.old) }
        requires category_bound { category < categories_of self.now.settings.bytes.now }
        requires pooled { (Pooled self.now.settings.bytes.now self.now.sums.now category 0 family_sums.old) × (Pooled self.now.settings.bytes.now self.now.counts.now category 0 family_counts.old) }
        ensures { (Pooled self.now.settings.bytes.now self.now.sums.now category (categories_of self.now.settings.bytes.now) family_sums.new) × (Pooled self.now.settings.bytes.now self.now.counts.now category (categories_of self.now.settings.bytes.now) family_counts.new) }
    {
        for b in 0..self.settings.category_count() {
            self.add_member(category, b, family_sums, family_counts);
        }
    }

    #[tactic(auto, using(ledger::proofs::Ready::ready, ledger::proofs::Ready::periods_bound, crate::proofs::Laws::start_asks, crate::proofs::Laws::stretch, crate::proofs::Laws::pooled_zero, crate::proofs::Laws::averaged_own, crate::proofs::Laws::averaged_family, crate::proofs::Laws::category_gives))]
    fn write_category(&self, inherited: &[u64], category: u64, date: u64, row: &mut [u64]) -> u64
        requires settings_in_bounds { (row_length self.now.settings.bytes.now ≤ length inherited.now) × (category < categories_of self.now.settings.bytes.now) × (date < 1024) × (length row.old ≡ periods_of self.now.settings.bytes.now) }
        ensures row_after { row.new ≡ tabulate (periods_of self.now.settings.bytes.now) (entry_from self.now.settings.bytes.now self.now.sums.now self.now.counts.now inherited.now date category) }
        ensures value { result ≡ differing (periods_of self.now.settings.bytes.now) (λ p. compared_entry (get_or row.old p 0)) (entry_from self.now.settings.bytes.now self.now.sums.now self.now.counts.now inherited.now date category) }
    {
        let mut family_sums = [0u64; 96];
        let mut family_counts = [0u64; 96];
        self.pool_family(category, &mut family_sums, &mut family_counts);
        let at = category_start(category, self.settings.period_count());
        shape_row(
            self.settings.is_smart(category),
            self.settings.de_minimis(category),
            date,
            self.sums,
            self.counts,
            inherited,
            at as usize,
            &family_sums,
            &family_counts,
            row,
        )
    }
}

// The row is the date's part of the cells. Answers how many of its cells moved.
#[tactic(auto, using(ledger::proofs::Ready::ready, ledger::proofs::Ready::row_bounds, crate::proofs::Laws::start_asks, crate::proofs::Laws::stretch, crate::proofs::Laws::row_start, crate::proofs::Laws::count_start, crate::proofs::Laws::row_step, crate::proofs::Laws::count_step, crate::proofs::Laws::row_end, entries::proofs::RowLaws::filled_whole, entries::proofs::RowLaws::differing_le, entries::proofs::RowLaws::counted))]
pub fn write_row(
    settings: Settings,
    sums: &[u64],
    counts: &[u64],
    inherited: &[u64],
    date: u64,
    row: &mut [u64],
) -> u64
    requires settings_value { (row_length settings.bytes.now ≤ length sums.now) × (row_length settings.bytes.now ≤ length counts.now) }
    requires bounded { Bounded settings.bytes.now sums.now counts.now }
    requires settings_in_bounds { (row_length settings.bytes.now ≤ length inherited.now) × (date < 1024) × (length row.old ≡ row_length settings.bytes.now) }
    ensures row_after { row.new ≡ tabulate (row_length settings.entry.bytes.now) (row_from settings.entry.bytes.now sums.now counts.now inherited.now date) }
    ensures value { result ≡ differing (row_length settings.entry.bytes.now) (λ k. compared_entry (get_or row.old k 0)) (row_from settings.entry.bytes.now sums.now counts.now inherited.now date) }
{
    let categories = settings.category_count();
    let periods = settings.period_count();
    let tally = DateTally {
        settings,
        sums,
        counts,
    };
    let mut moved = 0;
    for category in 0..categories {
        let at = category_start(category, periods) as usize;
        let end = at + periods as usize;
        moved += tally.write_category(inherited, category, date, &mut row[at..end]);
    }
    moved
}
