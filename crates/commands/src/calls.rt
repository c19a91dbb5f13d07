// One function for each call of the engine: the operands in, the answer line out.
ghost use Rattle.std.specs.Prelude.{◌≡◌, ◌+◌, ◌*◌, ◌≤◌, length, take, get_or};
ghost use Rattle.input.specs.Form.{Command};
ghost use Rattle.input.specs.Operands.{body_of, operand, run_widths, totals_widths, cell_widths};
ghost use Rattle.ledger.specs.Ledger.{answer, accepted, moved, totals_are, cell_is, left};
ghost use Rattle.ledger.specs.Calls.{registration_verdict, registered_meters, reception_verdict, received_readings, run_verdict, ran_from, day_verdict, totals_for, cell_verdict, cell_for};
ghost use Rattle.ledger.specs.Engine.{call_answer, leaves};
ghost use Rattle.output.specs.Text.{Appended};
ghost use Rattle.output.specs.Lines.{answer_line};
ghost use Rattle.commands.specs.Commands.{parts_of, code, opening_of, opening_answer, opening_leaves, registration_of, reception_of, call_of};

use crate::capacity::{Capacity, parts_suffice};
use engine::OpeningTerms;
use input::operands::{number, opening_operands, reception_operands, registration_operands};
use output::append::append;
use output::lines::append_answer_line;

// The windows are METH005's. An opening that the parts do not suffice for is lent empty ones.
pub fn open(
    command: &[u8],
    category_records: &[u8],
    day_types: &[u8],
    settings: &mut [u8],
    meters: &mut [u64],
    readings: &mut [u64],
    cells: &mut [u64],
    days: &mut [u64],
    capacity: Capacity,
    out: &mut [u8],
    at: usize,
) -> usize
    requires { (4 ≤ length command.now) × (at + 300 ≤ length out.old) }
    ensures appended { Appended out.old at out.new result (answer_line 16 (opening_answer capacity (parts_of settings.old meters.old readings.old cells.old days.old) (opening_of command.now category_records.now day_types.now))) }
    ensures days_after { parts_of settings.new meters.new readings.new cells.new days.new ≡ opening_leaves capacity (parts_of settings.old meters.old readings.old cells.old days.old) (opening_of command.now category_records.now day_types.now) }
    ensures upper_bound { result ≤ at + 300 }
{
    let given = opening_operands(command);
    let terms = OpeningTerms {
        duration: given.duration,
        meters: given.meters,
    };
    let windows = [0u64, 420, 30, 450];
    let dates = day_types.len() as u64;
    if parts_suffice(capacity, given.duration, given.meters, dates) {
        let outcome = engine::open(
            settings,
            meters,
            readings,
            cells,
            days,
            terms,
            &windows,
            category_records,
            day_types,
        );
        return append_answer_line(0x10, outcome, out, at);
    }
    let outcome = engine::open(
        &mut settings[..0],
        &mut meters[..0],
        &mut readings[..0],
        &mut cells[..0],
        &mut days[..0],
        terms,
        &windows,
        category_records,
        day_types,
    );
    append_answer_line(0x10, outcome, out, at)
}

// It is lent what the call reads and writes and no more, as are those below: a struct of all parts would leave open which it keeps.
fn register(
    command: &[u8],
    settings: &[u8],
    meters: &mut [u64],
    readings: &[u64],
    out: &mut [u8],
    at: usize,
) -> usize
    requires { (21 ≤ length command.now) × (at + 300 ≤ length out.old) }
    ensures appended { Appended out.old at out.new result (answer_line 19 (answer (registration_verdict settings.now meters.old readings.now (registration_of command.now)) accepted)) }
    ensures meters_after { meters.new ≡ left (registration_verdict settings.now meters.old readings.now (registration_of command.now)) meters.old (registered_meters settings.now meters.old readings.now (registration_of command.now)) }
    ensures upper_bound { result ≤ at + 300 }
{
    let given = registration_operands(command);
    let outcome = engine::register(
        settings,
        meters,
        readings,
        given.mpan,
        given.date,
        given.minute,
        given.category,
        given.sender,
        given.status,
        given.limit,
    );
    append_answer_line(0x13, outcome, out, at)
}

// The records of a reception without their 15s; answers how many bytes they are.
fn gather(command: &[u8], records: u64, body: &mut [u8]) -> usize
    requires { (16 + 8 * records ≤ length command.now) × (7 * records ≤ length body.old) }
    ensures { (result ≡ 7 * records) × (take result body.new ≡ body_of records command.now) }
{
    let mut to = 0;
    for k in 0..records as usize {
        let start = 17 + 8 * k;
        let end = start + 7;
        to = append(body, to, &command[start..end]);
    }
    to
}

fn receive(
    command: &[u8],
    settings: &[u8],
    meters: &[u64],
    readings: &mut [u64],
    out: &mut [u8],
    at: usize,
) -> usize
    requires { (16 ≤ length command.now) × (16 + 8 * get_or command.now 15 0 ≤ length command.now) × (at + 300 ≤ length out.old) }
    ensures appended { Appended out.old at out.new result (answer_line 20 (answer (reception_verdict settings.now meters.now readings.old (reception_of command.now)) accepted)) }
    ensures readings_after { readings.new ≡ left (reception_verdict settings.now meters.now readings.old (reception_of command.now)) readings.old (received_readings settings.now meters.now readings.old (reception_of command.now)) }
    ensures upper_bound { result ≤ at + 300 }
{
    let given = reception_operands(command);
    let mut body = [0u8; 1785];
    let length = gather(command, given.records, &mut body);
    let outcome = engine::receive(
        settings,
        meters,
        readings,
        given.sender,
        given.mpan,
        given.date,
        given.duration,
        given.quantity,
        &body[..length],
    );
    append_answer_line(0x14, outcome, out, at)
}

fn run(
    command: &[u8],
    settings: &[u8],
    meters: &[u64],
    readings: &[u64],
    cells: &mut [u64],
    days: &mut [u64],
    out: &mut [u8],
    at: usize,
) -> usize
    requires { (3 ≤ length command.now) × (at + 300 ≤ length out.old) }
    ensures appended { Appended out.old at out.new result (answer_line 22 (answer (run_verdict settings.now meters.now readings.now cells.old days.old (operand run_widths 0 command.now)) (moved (ran_from settings.now meters.now readings.now cells.old days.old (operand run_widths 0 command.now)).moved))) }
    ensures cells_after { cells.new ≡ left (run_verdict settings.now meters.now readings.now cells.old days.old (operand run_widths 0 command.now)) cells.old (ran_from settings.now meters.now readings.now cells.old days.old (operand run_widths 0 command.now)).published.cells }
    ensures days_after { days.new ≡ left (run_verdict settings.now meters.now readings.now cells.old days.old (operand run_widths 0 command.now)) days.old (ran_from settings.now meters.now readings.now cells.old days.old (operand run_widths 0 command.now)).published.days }
    ensures upper_bound { result ≤ at + 300 }
{
    let outcome = engine::run(
        settings,
        meters,
        readings,
        cells,
        days,
        number::<2>(command, 1),
    );
    append_answer_line(0x16, outcome, out, at)
}

fn totals(command: &[u8], settings: &[u8], days: &[u64], out: &mut [u8], at: usize) -> usize
    requires { (4 ≤ length command.now) × (at + 300 ≤ length out.old) }
    ensures appended { Appended out.old at out.new result (answer_line 23 (answer (day_verdict settings.now days.now (operand totals_widths 0 command.now) (operand totals_widths 1 command.now)) (totals_are (totals_for settings.now days.now (operand totals_widths 0 command.now) (operand totals_widths 1 command.now))))) }
    ensures upper_bound { result ≤ at + 300 }
{
    let outcome = engine::read_totals(
        settings,
        days,
        number::<2>(command, 1),
        number::<1>(command, 3),
    );
    append_answer_line(0x17, outcome, out, at)
}

fn cell(command: &[u8], settings: &[u8], cells: &[u64], out: &mut [u8], at: usize) -> usize
    requires { (5 ≤ length command.now) × (at + 300 ≤ length out.old) }
    ensures appended { Appended out.old at out.new result (answer_line 24 (answer (cell_verdict settings.now cells.now (operand cell_widths 0 command.now) (operand cell_widths 1 command.now) (operand cell_widths 2 command.now)) (cell_is (cell_for settings.now cells.now (operand cell_widths 0 command.now) (operand cell_widths 1 command.now) (operand cell_widths 2 command.now))))) }
    ensures upper_bound { result ≤ at + 300 }
{
    let outcome = engine::read_cell(
        settings,
        cells,
        number::<2>(command, 1),
        number::<1>(command, 3),
        number::<1>(command, 4),
    );
    append_answer_line(0x18, outcome, out, at)
}

// A command that asks the opened store. A match by its code and no table of closures: each call is lent other parts.
pub fn ask(
    command: &[u8],
    settings: &[u8],
    meters: &mut [u64],
    readings: &mut [u64],
    cells: &mut [u64],
    days: &mut [u64],
    out: &mut [u8],
    at: usize,
) -> usize
    requires command { Command command.now × (at + 300 ≤ length out.old) }
    requires fact { (get_or command.now 0 0 ≡ 16 → ⊥) × (get_or command.now 0 0 ≡ 17 → ⊥) × (get_or command.now 0 0 ≡ 18 → ⊥) }
    ensures appended { Appended out.old at out.new result (answer_line (code command.now) (call_answer (parts_of settings.now meters.old readings.old cells.old days.old) (call_of command.now))) }
    ensures days_after { parts_of settings.now meters.new readings.new cells.new days.new ≡ leaves (parts_of settings.now meters.old readings.old cells.old days.old) (call_of command.now) }
    ensures upper_bound { result ≤ at + 300 }
{
    let code = command[0];
    match code {
        0x13 => register(command, settings, meters, &readings[..], out, at),
        0x14 => receive(command, settings, &meters[..], readings, out, at),
        0x16 => run(
            command,
            settings,
            &meters[..],
            &readings[..],
            cells,
            days,
            out,
            at,
        ),
        0x17 => totals(command, settings, &days[..], out, at),
        _ => cell(command, settings, &cells[..], out, at),
    }
}
