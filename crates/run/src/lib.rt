// The run of a date: its shapes from the readings held, and what later dates take over from them. And its preview.
#![tactic(auto)]

mod own_row;
pub mod preview;
mod sources;

ghost use Rattle.std.specs.Prelude.{◌≡◌, true, ℕ, ◌<◌, ◌≤◌, length, get_or, IfOk};
ghost use Rattle.ledger.specs.Method.{blank};
ghost use Rattle.ledger.specs.Ledger.{answer, left, moved};
ghost use Rattle.ledger.specs.Store.{meters_ready, readings_ready, cells_ready, days_ready, dates_of, row_length, entry_of};
ghost use Rattle.ledger.specs.Calls.{as_published, publish, as_ran, settled, run_verdict, ran_from};
ghost use Rattle.run_date.specs.Sums.{Bounded, row_from};
ghost use Rattle.store.specs.Outcome.{failed_number, run_answer};

use crate::own_row::write_date;
use crate::sources::gather;
use entries::entry::BLANK_ENTRY;
use later_dates::row::row_of;
use later_dates::write::write_later;
use later_rows::carry_row;
use settings::opened::Settings;
use store::lent::{Cells, run_lent};
use store::refusal::{Check, Refusal};

#[tactic(auto, unfolding(ledger::specs::Calls::run_verdict, ledger::specs::Checks::run_check))]
fn check_run<'a>(
    settings: &'a [u8],
    meters: &[u64],
    readings: &[u64],
    cells: &[u64],
    days: &[u64],
    date: u64,
) -> Result<Settings<'a>, Check>
    ensures number { failed_number result ≡ (run_verdict settings.now meters.now readings.now cells.now days.now date).number }
    ensures lent { IfOk result (λ s. s.bytes.now ≡ settings.now) }
{
    let settings = run_lent(settings, meters, readings, cells, days)?;
    if settings.date_count() <= date {
        return Err(Check::Date);
    }
    Ok(settings)
}

// The date's own cells first, then the later dates.
#[tactic(auto, using(later_dates::proofs::Laws::row_there, crate::proofs::Laws::moved_by_le, store::proofs::RowLaws::still_ready, store::proofs::RowLaws::days_still_ready))]
fn settle(
    settings: Settings,
    sums: &[u64],
    counts: &[u64],
    inherited: &mut [u64],
    cells: &mut [u64],
    days: &mut [u64],
    date: u64,
) -> u64
    requires settings_value { (cells_ready settings.bytes.now cells.old ≡ true) × (days_ready settings.bytes.now days.old ≡ true) × (date < dates_of settings.bytes.now) }
    requires settings_in_bounds { (row_length settings.bytes.now ≤ length sums.now) × (row_length settings.bytes.now ≤ length counts.now) × (row_length settings.bytes.now ≤ length inherited.old) × Bounded settings.bytes.now sums.now counts.now }
    ensures { as_ran cells.new days.new result ≡ settled publish settings.entry.bytes.now (row_from settings.entry.bytes.now sums.now counts.now inherited.old date) (as_published cells.old days.old) date }
{
    let moved = write_date(settings, sums, counts, &inherited[..], cells, days, date);
    let written = Cells {
        settings,
        entries: &cells[..],
    };
    carry_row(row_of(written, date), inherited);
    write_later(
        settings,
        cells,
        days,
        settings.day_type(date),
        date + 1,
        moved,
        inherited,
    )
}

// The rows for sums and counts begin empty, that for what is taken over blank. A function of its own, so that a refused run fills none of them.
#[inline(never)]
#[tactic(auto, using(crate::proofs::Laws::rows_there))]
fn run_accepted(
    settings: Settings,
    meters: &[u64],
    readings: &[u64],
    cells: &mut [u64],
    days: &mut [u64],
    date: u64,
) -> u64
    requires { (meters_ready settings.bytes.now meters.now ≡ true) × (readings_ready settings.bytes.now readings.now ≡ true) × (cells_ready settings.bytes.now cells.old ≡ true) × (days_ready settings.bytes.now days.old ≡ true) × (date < dates_of settings.bytes.now) }
    ensures { as_ran cells.new days.new result ≡ ran_from settings.entry.bytes.now meters.now readings.now cells.old days.old date }
{
    let mut sums = [0u64; 6144];
    let mut counts = [0u64; 6144];
    let mut inherited = [BLANK_ENTRY; 6144];
    let published = Cells {
        settings,
        entries: &cells[..],
    };
    gather(
        published,
        meters,
        readings,
        date,
        &mut sums,
        &mut counts,
        &mut inherited,
    );
    settle(settings, &sums, &counts, &mut inherited, cells, days, date)
}

#[tactic(auto, using(store::proofs::Refusals::refused_at, ledger::proofs::Verdicts::left_some, store::proofs::Refusals::number_some, crate::proofs::Laws::run_place, ledger::proofs::Choices::accepted_run))]
pub fn run(
    settings: &[u8],
    meters: &[u64],
    readings: &[u64],
    cells: &mut [u64],
    days: &mut [u64],
    date: u64,
) -> Result<u64, Refusal>
    ensures result_value { run_answer result ≡ answer (run_verdict settings.now meters.now readings.now cells.old days.old date) (moved (ran_from settings.now meters.now readings.now cells.old days.old date).moved) }
    ensures cells_after { cells.new ≡ left (run_verdict settings.now meters.now readings.now cells.old days.old date) cells.old (ran_from settings.now meters.now readings.now cells.old days.old date).published.cells }
    ensures days_after { days.new ≡ left (run_verdict settings.now meters.now readings.now cells.old days.old date) days.old (ran_from settings.now meters.now readings.now cells.old days.old date).published.days }
{
    let settings = check_run(settings, meters, readings, &cells[..], &days[..], date)?;
    Ok(run_accepted(settings, meters, readings, cells, days, date))
}
