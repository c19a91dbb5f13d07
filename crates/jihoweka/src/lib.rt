// The library for C: every call as an exported function on numbers and slices. `include/jihoweka.h` declares them.
// The number is returned; the other fields of the answer go to the front of the list `fields`, which is looked at before all else.
#![tactic(auto)]

ghost use Rattle.std.specs.Prelude.{◌≡◌, not, [], eqb, length};
ghost use Rattle.ledger.specs.Ledger.{answer, accepted, moved, totals_are, cell_is, net_is, band_is, filled_are, coverage_is, left};
ghost use Rattle.ledger.specs.Fill.{of_category, of_opted_out};
ghost use Rattle.ledger.specs.Store.{cell_of_entry};
ghost use Rattle.ledger.specs.Calls.{opening_verdict, registration_verdict, registered_meters, reception_verdict, received_readings, run_verdict, ran_from, day_verdict, totals_for, cell_verdict, cell_for, net_verdict, net_for, band_verdict, band_for, fill_verdict, fill_for, coverage_for, preview_verdict, previewed, row_verdict, row_for, overwritten};
ghost use Rattle.registration.specs.Registration.{registration_call};
ghost use Rattle.reception.specs.Reception.{reception_call};
ghost use Rattle.reads.specs.Row.{row_call};
ghost use Rattle.net.specs.Asked.{net_call};
ghost use Rattle.band.specs.Search.{band_call};
ghost use Rattle.fill.specs.Asked.{fill_call};
ghost use Rattle.fields.specs.Fields.{Returned, unless_short, OpeningLeaves};

use engine::OpeningTerms;
use fields::numbers::{Fields, numbers_of, put_fields};

// How many entries the list has at least: the most fields that an answer has.
const FIELDS: usize = 11;

// What a call returns where the list has fewer.
const SHORT: u64 = 1;

#[unsafe(no_mangle)]
pub extern "C" fn jihoweka_open(
    settings: &mut [u8],
    meters: &mut [u64],
    readings: &mut [u64],
    cells: &mut [u64],
    days: &mut [u64],
    duration: u64,
    meter_count: u64,
    windows: &[u64],
    category_records: &[u8],
    day_types: &[u8],
    fields: &mut [i64],
) -> u64
    ensures answers { Returned fields.old (answer (opening_verdict settings.old meters.old readings.old cells.old days.old (record { duration = duration; meters = meter_count; window_minutes = windows.now; category_bytes = category_records.now; day_types = day_types.now })) accepted) result fields.new }
    ensures parts_are { OpeningLeaves fields.old settings.old meters.old readings.old cells.old days.old (record { duration = duration; meters = meter_count; window_minutes = windows.now; category_bytes = category_records.now; day_types = day_types.now }) settings.new meters.new readings.new cells.new days.new }
{
    if fields.len() < FIELDS {
        return SHORT;
    }
    let outcome = engine::open(
        settings,
        meters,
        readings,
        cells,
        days,
        OpeningTerms {
            duration,
            meters: meter_count,
        },
        windows,
        category_records,
        day_types,
    );
    put_fields(fields, numbers_of(outcome))
}

#[unsafe(no_mangle)]
pub extern "C" fn jihoweka_register(
    settings: &[u8],
    meters: &mut [u64],
    readings: &[u64],
    mpan: u64,
    date: u64,
    minute: u64,
    category: u64,
    sender: u16,
    status: u64,
    limit: u32,
    fields: &mut [i64],
) -> u64
    ensures answers { Returned fields.old (answer (registration_verdict settings.now meters.old readings.now (registration_call mpan date minute category sender status limit)) accepted) result fields.new }
    ensures meters_are { meters.new ≡ unless_short fields.old meters.old (left (registration_verdict settings.now meters.old readings.now (registration_call mpan date minute category sender status limit)) meters.old (registered_meters settings.now meters.old readings.now (registration_call mpan date minute category sender status limit))) }
{
    if fields.len() < FIELDS {
        return SHORT;
    }
    let outcome = engine::register(
        settings, meters, readings, mpan, date, minute, category, sender, status, limit,
    );
    put_fields(fields, numbers_of(outcome))
}

#[unsafe(no_mangle)]
pub extern "C" fn jihoweka_receive(
    settings: &[u8],
    meters: &[u64],
    readings: &mut [u64],
    sender: u16,
    mpan: u64,
    date: u64,
    duration: u64,
    quantity: u64,
    body: &[u8],
    fields: &mut [i64],
) -> u64
    ensures answers { Returned fields.old (answer (reception_verdict settings.now meters.now readings.old (reception_call sender mpan date duration quantity body.now)) accepted) result fields.new }
    ensures readings_are { readings.new ≡ unless_short fields.old readings.old (left (reception_verdict settings.now meters.now readings.old (reception_call sender mpan date duration quantity body.now)) readings.old (received_readings settings.now meters.now readings.old (reception_call sender mpan date duration quantity body.now))) }
{
    if fields.len() < FIELDS {
        return SHORT;
    }
    let outcome = engine::receive(
        settings, meters, readings, sender, mpan, date, duration, quantity, body,
    );
    put_fields(fields, numbers_of(outcome))
}

#[unsafe(no_mangle)]
pub extern "C" fn jihoweka_run(
    settings: &[u8],
    meters: &[u64],
    readings: &[u64],
    cells: &mut [u64],
    days: &mut [u64],
    date: u64,
    fields: &mut [i64],
) -> u64
    ensures answers { Returned fields.old (answer (run_verdict settings.now meters.now readings.now cells.old days.old date) (moved (ran_from settings.now meters.now readings.now cells.old days.old date).moved)) result fields.new }
    ensures cells_are { cells.new ≡ unless_short fields.old cells.old (left (run_verdict settings.now meters.now readings.now cells.old days.old date) cells.old (ran_from settings.now meters.now readings.now cells.old days.old date).published.cells) }
    ensures days_are { days.new ≡ unless_short fields.old days.old (left (run_verdict settings.now meters.now readings.now cells.old days.old date) days.old (ran_from settings.now meters.now readings.now cells.old days.old date).published.days) }
{
    if fields.len() < FIELDS {
        return SHORT;
    }
    let outcome = engine::run(settings, meters, readings, cells, days, date);
    put_fields(fields, numbers_of(outcome))
}

#[unsafe(no_mangle)]
pub extern "C" fn jihoweka_preview(
    settings: &[u8],
    meters: &[u64],
    readings: &[u64],
    cells: &[u64],
    days: &[u64],
    draft: &mut [u64],
    date: u64,
    fields: &mut [i64],
) -> u64
    ensures answers { Returned fields.old (answer (preview_verdict settings.now meters.now readings.now cells.now days.now draft.old date) (moved (ran_from settings.now meters.now readings.now cells.now days.now date).moved)) result fields.new }
    ensures draft_is { draft.new ≡ unless_short fields.old draft.old (left (preview_verdict settings.now meters.now readings.now cells.now days.now draft.old date) draft.old (overwritten (previewed settings.now meters.now readings.now cells.now days.now date) draft.old)) }
{
    if fields.len() < FIELDS {
        return SHORT;
    }
    let outcome = engine::preview(settings, meters, readings, cells, days, draft, date);
    put_fields(fields, numbers_of(outcome))
}

#[unsafe(no_mangle)]
pub extern "C" fn jihoweka_read_totals(
    settings: &[u8],
    days: &[u64],
    date: u64,
    category: u64,
    fields: &mut [i64],
) -> u64
    ensures { Returned fields.old (answer (day_verdict settings.now days.now date category) (totals_are (totals_for settings.now days.now date category))) result fields.new }
{
    if fields.len() < FIELDS {
        return SHORT;
    }
    let outcome = engine::read_totals(settings, days, date, category);
    put_fields(fields, numbers_of(outcome))
}

#[unsafe(no_mangle)]
pub extern "C" fn jihoweka_read_cell(
    settings: &[u8],
    cells: &[u64],
    date: u64,
    category: u64,
    period: u64,
    fields: &mut [i64],
) -> u64
    ensures { Returned fields.old (answer (cell_verdict settings.now cells.now date category period) (cell_is (cell_for settings.now cells.now date category period))) result fields.new }
{
    if fields.len() < FIELDS {
        return SHORT;
    }
    let outcome = engine::read_cell(settings, cells, date, category, period);
    put_fields(fields, numbers_of(outcome))
}

// `from_draft` is a switch: 0 names the published cells, any other number the draft. A reference cannot be returned to C: the length is, and the
// header says where the row stands.
#[unsafe(no_mangle)]
pub extern "C" fn jihoweka_read_row<'a>(
    settings: &[u8],
    cells: &'a [u64],
    draft: &'a [u64],
    date: u64,
    category: u64,
    from_draft: u64,
    number: &mut u64,
) -> u64
    ensures value { result ≡ length (left (row_verdict settings.now cells.now draft.now (row_call date category from_draft draft.now)) [] (row_for settings.now cells.now draft.now (row_call date category from_draft draft.now))) }
    ensures number_after { number.new ≡ (row_verdict settings.now cells.now draft.now (row_call date category from_draft draft.now)).number }
{
    match engine::read_row(settings, cells, draft, date, category, from_draft) {
        Ok(row) => {
            *number = 0;
            row.len() as u64
        }
        Err(refusal) => {
            *number = refusal.check.number();
            0
        }
    }
}

// The cell of an entry of a row.
#[unsafe(no_mangle)]
pub extern "C" fn jihoweka_read_entry(entry: u64, fields: &mut [i64]) -> u64
    ensures { Returned fields.old (cell_is (cell_of_entry entry)) result fields.new }
{
    if fields.len() < FIELDS {
        return SHORT;
    }
    let cell = engine::cell_of_entry(entry);
    put_fields(fields, cell.numbers())
}

// `all_groups` is a switch: 0 nets the own group, any other number all groups.
#[tactic(auto, using(crate::proofs::Fit::net_apart))]
#[unsafe(no_mangle)]
pub extern "C" fn jihoweka_read_net(
    settings: &[u8],
    cells: &[u64],
    days: &[u64],
    date: u64,
    category: u64,
    all_groups: u64,
    numbers: &mut [i64],
    marks: &mut [u8],
    fields: &mut [i64],
) -> u64
    ensures answers { Returned fields.old (answer (net_verdict settings.now cells.now days.now (net_call (not (eqb all_groups 0)) date category numbers.old marks.old)) (net_is (net_for settings.now cells.now days.now (net_call (not (eqb all_groups 0)) date category numbers.old marks.old)))) result fields.new }
    ensures nets_are { numbers.new ≡ unless_short fields.old numbers.old (left (net_verdict settings.now cells.now days.now (net_call (not (eqb all_groups 0)) date category numbers.old marks.old)) numbers.old (overwritten (net_for settings.now cells.now days.now (net_call (not (eqb all_groups 0)) date category numbers.old marks.old)).periods numbers.old)) }
    ensures marks_are { marks.new ≡ unless_short fields.old marks.old (left (net_verdict settings.now cells.now days.now (net_call (not (eqb all_groups 0)) date category numbers.old marks.old)) marks.old (overwritten (net_for settings.now cells.now days.now (net_call (not (eqb all_groups 0)) date category numbers.old marks.old)).marks marks.old)) }
{
    if fields.len() < FIELDS {
        return SHORT;
    }
    let outcome = engine::read_net(
        settings,
        cells,
        days,
        date,
        category,
        all_groups != 0,
        numbers,
        marks,
    );
    put_fields(fields, numbers_of(outcome))
}

#[tactic(auto, using(crate::proofs::Fit::band_apart))]
#[unsafe(no_mangle)]
pub extern "C" fn jihoweka_search_band(
    settings: &[u8],
    days: &[u64],
    category: u64,
    day_type: u64,
    least: u64,
    most: u64,
    dates: &mut [u64],
    fields: &mut [i64],
) -> u64
    ensures answers { Returned fields.old (answer (band_verdict settings.now days.now (band_call category day_type least most dates.old)) (band_is (band_for settings.now days.now (band_call category day_type least most dates.old)))) result fields.new }
    ensures dates_are { dates.new ≡ unless_short fields.old dates.old (left (band_verdict settings.now days.now (band_call category day_type least most dates.old)) dates.old (overwritten (band_for settings.now days.now (band_call category day_type least most dates.old)).dates dates.old)) }
{
    if fields.len() < FIELDS {
        return SHORT;
    }
    let outcome = engine::search_band(settings, days, category, day_type, least, most, dates);
    put_fields(fields, numbers_of(outcome))
}

#[tactic(auto, using(crate::proofs::Fit::values_apart))]
#[unsafe(no_mangle)]
pub extern "C" fn jihoweka_fill(
    settings: &[u8],
    cells: &[u64],
    date: u64,
    category: u64,
    advance: u32,
    missing: &[u8],
    filled: &mut [u64],
    fields: &mut [i64],
) -> u64
    ensures answers { Returned fields.old (answer (fill_verdict settings.now cells.now (fill_call (of_category category) date advance missing.now filled.old)) (filled_are (fill_for settings.now cells.now (fill_call (of_category category) date advance missing.now filled.old)))) result fields.new }
    ensures filled_is { filled.new ≡ unless_short fields.old filled.old (left (fill_verdict settings.now cells.now (fill_call (of_category category) date advance missing.now filled.old)) filled.old (overwritten (fill_for settings.now cells.now (fill_call (of_category category) date advance missing.now filled.old)) filled.old)) }
{
    if fields.len() < FIELDS {
        return SHORT;
    }
    let outcome = engine::fill(settings, cells, date, category, advance, missing, filled);
    put_fields(fields, numbers_of(outcome))
}

#[tactic(auto, using(crate::proofs::Fit::values_apart))]
#[unsafe(no_mangle)]
pub extern "C" fn jihoweka_fill_opted_out(
    settings: &[u8],
    cells: &[u64],
    date: u64,
    group: u64,
    quantity: u64,
    connection: u64,
    advance: u32,
    missing: &[u8],
    filled: &mut [u64],
    fields: &mut [i64],
) -> u64
    ensures answers { Returned fields.old (answer (fill_verdict settings.now cells.now (fill_call (of_opted_out group quantity connection) date advance missing.now filled.old)) (filled_are (fill_for settings.now cells.now (fill_call (of_opted_out group quantity connection) date advance missing.now filled.old)))) result fields.new }
    ensures filled_is { filled.new ≡ unless_short fields.old filled.old (left (fill_verdict settings.now cells.now (fill_call (of_opted_out group quantity connection) date advance missing.now filled.old)) filled.old (overwritten (fill_for settings.now cells.now (fill_call (of_opted_out group quantity connection) date advance missing.now filled.old)) filled.old)) }
{
    if fields.len() < FIELDS {
        return SHORT;
    }
    let outcome = engine::fill_opted_out(
        settings, cells, date, group, quantity, connection, advance, missing, filled,
    );
    put_fields(fields, numbers_of(outcome))
}

#[unsafe(no_mangle)]
pub extern "C" fn jihoweka_read_coverage(
    settings: &[u8],
    days: &[u64],
    date: u64,
    category: u64,
    fields: &mut [i64],
) -> u64
    ensures { Returned fields.old (answer (day_verdict settings.now days.now date category) (coverage_is (coverage_for settings.now days.now date category))) result fields.new }
{
    if fields.len() < FIELDS {
        return SHORT;
    }
    let outcome = engine::read_coverage(settings, days, date, category);
    put_fields(fields, numbers_of(outcome))
}
