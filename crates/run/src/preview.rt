// The preview of a run: the date's new row is made in a lent draft, and what would move on later dates is counted.
ghost use Rattle.std.specs.Prelude.{◌≡◌, true, [], ℕ, ◌<◌, ◌≤◌, length, get_or, IfOk};
ghost use Rattle.ledger.specs.Method.{blank};
ghost use Rattle.ledger.specs.Ledger.{answer, left, moved};
ghost use Rattle.ledger.specs.Store.{meters_ready, readings_ready, dates_of, row_length, entry_of};
ghost use Rattle.ledger.specs.Table.{tabulate};
ghost use Rattle.ledger.specs.Calls.{as_published, count_only, settled, new_row, ran_from, moved_from, preview_verdict, previewed, overwritten};
ghost use Rattle.run_date.specs.Sums.{Bounded, row_from};
ghost use Rattle.store.specs.Outcome.{failed_number, run_answer};

use crate::sources::gather;
use entries::entry::BLANK_ENTRY;
use later_dates::count::count_later;
use later_dates::row::row_of;
use later_rows::{carry_row, copy_row};
use run_date::write::write_row;
use store::lent::{Cells, run_lent};
use store::refusal::{Check, Refusal};
use store::rows::row_length;

#[tactic(auto, using(ledger::proofs::Choices::parts_ready), unfolding(ledger::specs::Calls::preview_verdict, ledger::specs::Checks::preview_check, ledger::specs::Calls::draft_unready, ledger::specs::Checks::run_check))]
fn check_preview<'a>(
    settings: &'a [u8],
    meters: &[u64],
    readings: &[u64],
    cells: &'a [u64],
    days: &[u64],
    draft: &[u64],
    date: u64,
) -> Result<Cells<'a>, Check>
    ensures number { failed_number result ≡ (preview_verdict settings.now meters.now readings.now cells.now days.now draft.now date).number }
    ensures lent { IfOk result (λ c. (c.settings.bytes.now ≡ settings.now) × (c.entries.now ≡ cells.now)) }
{
    let settings = run_lent(settings, meters, readings, cells, days)?;
    if (draft.len() as u64) < row_length(settings) {
        return Err(Check::DraftShort);
    }
    if settings.date_count() <= date {
        return Err(Check::Date);
    }
    Ok(Cells {
        settings,
        entries: cells,
    })
}

// The row has the published one first, so that its writer counts against that. Later rows are copied to the place of the sums, which are done with.
#[tactic(auto, using(later_dates::proofs::Laws::row_there, crate::proofs::Laws::moved_by_le))]
fn draw(
    cells: Cells,
    sums: &mut [u64],
    counts: &[u64],
    inherited: &mut [u64],
    row: &mut [u64],
    date: u64,
) -> u64
    requires settings_value { (date < dates_of cells.settings.bytes.now) × (length row.old ≡ row_length cells.settings.bytes.now) }
    requires settings_in_bounds { (row_length cells.settings.bytes.now ≤ length sums.old) × (row_length cells.settings.bytes.now ≤ length counts.now) × (row_length cells.settings.bytes.now ≤ length inherited.old) × Bounded cells.settings.bytes.now sums.old counts.now }
    ensures row_after { row.new ≡ tabulate (row_length cells.entry.settings.bytes.now) (row_from cells.entry.settings.bytes.now sums.old counts.now inherited.old date) }
    ensures value { result ≡ (settled count_only cells.entry.settings.bytes.now (row_from cells.entry.settings.bytes.now sums.old counts.now inherited.old date) (as_published cells.entry.entries.now []) date).moved }
{
    copy_row(row_of(cells, date), row);
    let moved = write_row(cells.settings, &sums[..], counts, &inherited[..], date, row);
    carry_row(&row[..], inherited);
    let day = cells.settings.day_type(date);
    count_later(cells, day, date + 1, moved, inherited, sums)
}

// A function of its own, like `run_accepted`.
#[inline(never)]
#[tactic(auto, using(crate::proofs::Laws::rows_there))]
fn preview_accepted(
    cells: Cells,
    meters: &[u64],
    readings: &[u64],
    row: &mut [u64],
    date: u64,
) -> u64
    requires { (meters_ready cells.settings.bytes.now meters.now ≡ true) × (readings_ready cells.settings.bytes.now readings.now ≡ true) × (date < dates_of cells.settings.bytes.now) × (length row.old ≡ row_length cells.settings.bytes.now) }
    ensures row_after { row.new ≡ tabulate (row_length cells.entry.settings.bytes.now) (new_row cells.entry.settings.bytes.now meters.now readings.now cells.entry.entries.now date) }
    ensures value { result ≡ moved_from cells.entry.settings.bytes.now meters.now readings.now cells.entry.entries.now date }
{
    let mut sums = [0u64; 6144];
    let mut counts = [0u64; 6144];
    let mut inherited = [BLANK_ENTRY; 6144];
    gather(
        cells,
        meters,
        readings,
        date,
        &mut sums,
        &mut counts,
        &mut inherited,
    );
    draw(cells, &mut sums, &counts, &mut inherited, row, date)
}

// The draft's front becomes the date's row as a run would leave it, and the answer is the run's.
#[tactic(auto, using(store::proofs::Refusals::refused_at, ledger::proofs::Verdicts::left_some, store::proofs::Refusals::number_some, crate::proofs::Laws::preview_place, ledger::proofs::Choices::accepted_preview))]
pub fn preview(
    settings: &[u8],
    meters: &[u64],
    readings: &[u64],
    cells: &[u64],
    days: &[u64],
    draft: &mut [u64],
    date: u64,
) -> Result<u64, Refusal>
    ensures result_value { run_answer result ≡ answer (preview_verdict settings.now meters.now readings.now cells.now days.now draft.old date) (moved (ran_from settings.now meters.now readings.now cells.now days.now date).moved) }
    ensures draft_after { draft.new ≡ left (preview_verdict settings.now meters.now readings.now cells.now days.now draft.old date) draft.old (overwritten (previewed settings.now meters.now readings.now cells.now days.now date) draft.old) }
{
    let cells = check_preview(settings, meters, readings, cells, days, &draft[..], date)?;
    let length = row_length(cells.settings) as usize;
    Ok(preview_accepted(cells, meters, readings, &mut draft[..length], date))
}
