// The net read (change request 2026-13): import less export, for each period of a date, for the date and for its week. Both sides are found before a cell is read;
// the week comes from the days.
#![tactic(auto)]

ghost use Rattle.std.specs.Prelude.{◌≡◌, length};
ghost use Rattle.ledger.specs.Ledger.{answer, net_is, left};
ghost use Rattle.ledger.specs.Store.{periods_of};
ghost use Rattle.ledger.specs.Calls.{net_verdict, net_for, overwritten};
ghost use Rattle.net.specs.Asked.{net_call};
ghost use Rattle.store.specs.Outcome.{net_answer};
ghost use Rattle.net.specs.Walk.{net_in, MayWrite, NetWritten};

use crate::checks::check_pair;
use crate::periods::{difference, write_periods};
use crate::week::week_sum;
use reads::checks::check_range;
use settings::category::{ACTIVE_EXPORT, ACTIVE_IMPORT};
use store::column::{Column, column_of};
use store::lent::days_lent;
use store::outcome::Net;
use store::refusal::Refusal;

mod checks;
mod periods;
mod week;

#[tactic(auto, using(store::proofs::Refusals::refused_at, store::proofs::Refusals::number_some, ledger::proofs::Verdicts::left_some, crate::proofs::ReadLaws::in_range, crate::proofs::ReadLaws::place_is, crate::proofs::ReadLaws::by_days, crate::proofs::ReadLaws::by_range, crate::proofs::ReadLaws::by_pair))]
pub fn read_net(
    settings: &[u8],
    cells: &[u64],
    days: &[u64],
    date: u64,
    category: u64,
    all_groups: bool,
    numbers: &mut [i64],
    marks: &mut [u8],
) -> Result<Net, Refusal>
    ensures answers { net_answer (periods_of settings.now) result numbers.new marks.new ≡ answer (net_verdict settings.now cells.now days.now (net_call all_groups date category numbers.old marks.old)) (net_is (net_for settings.now cells.now days.now (net_call all_groups date category numbers.old marks.old))) }
    ensures nets_are { numbers.new ≡ left (net_verdict settings.now cells.now days.now (net_call all_groups date category numbers.old marks.old)) numbers.old (overwritten (net_for settings.now cells.now days.now (net_call all_groups date category numbers.old marks.old)).periods numbers.old) }
    ensures marks_are { marks.new ≡ left (net_verdict settings.now cells.now days.now (net_call all_groups date category numbers.old marks.old)) marks.old (overwritten (net_for settings.now cells.now days.now (net_call all_groups date category numbers.old marks.old)).marks marks.old) }
{
    days_lent(settings, days)?;
    let lent = check_range(
        settings,
        cells,
        date,
        category,
        numbers.len() as u64,
        marks.len() as u64,
    )?;
    let settings = lent.settings;
    let exports = settings.side_members(all_groups, ACTIVE_EXPORT, category);
    check_pair(lent, date, category, exports.as_slice())?;
    let imports = settings.side_members(all_groups, ACTIVE_IMPORT, category);
    let column = column_of(settings, category);
    let dates = settings.date_count();
    Ok(net_of(
        cells,
        column,
        days,
        dates,
        date,
        imports.as_slice(),
        exports.as_slice(),
        numbers,
        marks,
    ))
}

// `column` is any category's.
fn net_of(
    cells: &[u64],
    column: Column,
    days: &[u64],
    dates: u64,
    date: u64,
    imports: &[u64],
    exports: &[u64],
    numbers: &mut [i64],
    marks: &mut [u8],
) -> Net
    requires { MayWrite cells.now column (length days.now) dates date imports.now exports.now (length numbers.old) (length marks.old) }
    ensures { NetWritten (net_in column cells.now days.now dates imports.now exports.now date) result.tot result.tot7 numbers.old numbers.new marks.old marks.new }
{
    let day = write_periods(cells, column, date, imports, exports, numbers, marks);
    let import_week = week_sum(days, dates, date, imports);
    let export_week = week_sum(days, dates, date, exports);
    let tot = difference(day.import, day.export);
    let tot7 = difference(import_week, export_week);
    Net { tot, tot7 }
}
