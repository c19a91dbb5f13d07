// The days of a date, from the row that it was given.
ghost use Rattle.std.specs.Prelude.{◌≡◌, ◌<◌, true, length, slice_index};
ghost use Rattle.ledger.specs.Store.{days_ready, categories_of, dates_of, periods_of, row_length, cell_of_entry};
ghost use Rattle.ledger.specs.Calls.{entries_for, kept_days};
ghost use Rattle.store.specs.DayRows.{entries_meant};

use crate::put::put_day;
use crate::row::entries_of_row;
use metering::calendar::periods_within;
use settings::header::window_of;
use settings::opened::Settings;
use store::day_rows::DayEntries;
use store::rows::category_start;

// `cells` are the category's in the row.
#[tactic(auto, using(crate::proofs::Laws::sizes, settings::proofs::Laws::header_there), unfolding(ledger::specs::Store::periods_of))]
fn entries_for(settings: Settings, category: u64, cells: &[u64]) -> DayEntries
    requires { (category < categories_of settings.bytes.now) × (length cells.now ≡ periods_of settings.bytes.now) }
    ensures { entries_meant result ≡ entries_for settings.entry.bytes.now category (λ p. cell_of_entry (slice_index cells.now p)) }
{
    let own = window_of(settings.bytes, settings.window(category));
    entries_of_row(
        cells,
        periods_within(settings.duration(), own.start, own.end),
    )
}

#[tactic(auto, using(crate::proofs::Laws::sizes, crate::proofs::Laws::stretch_fits), unfolding(ledger::specs::Calls::kept_days))]
pub fn keep_days(settings: Settings, row: &[u64], date: u64, days: &mut [u64])
    requires { (days_ready settings.bytes.now days.old ≡ true) × (date < dates_of settings.bytes.now) × (length row.now ≡ row_length settings.bytes.now) }
    ensures { days.new ≡ kept_days settings.entry.bytes.now date row.now (categories_of settings.entry.bytes.now) days.old }
{
    let dates = settings.date_count();
    let periods = settings.period_count();
    for category in 0..settings.category_count() {
        let at = category_start(category, periods) as usize;
        let cells = &row[at..at + periods as usize];
        put_day(
            days,
            dates,
            category,
            date,
            entries_for(settings, category, cells),
        );
    }
}
