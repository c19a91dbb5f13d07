// The periods of the date: each cell that is summed is read once.
ghost use Rattle.std.specs.Prelude.{◌≡◌, cond, ◌+◌, ◌<◌, ◌≤◌, eqb, pos, ◌-ℤ◌, length, set};
ghost use Rattle.ledger.specs.Method.{is_blank};
ghost use Rattle.entries.specs.Cell.{flag_meant};
ghost use Rattle.entries.specs.Sums.{Figure};
ghost use Rattle.store.specs.Column.{Reaches};
ghost use Rattle.net.specs.Walk.{Among, SideSummed, DayWritten};

use entries::cell::Flag;
use store::column::{Column, beside, cell_at};

// The cells of one period, summed over one side: their values, and how many of them are N.
#[derive(Clone, Copy, Debug, PartialEq, Eq)]
pub struct SideSum {
    pub value: u64,
    pub blanks: u64,
}

// The values of a date's cells, summed over each side.
#[derive(Clone, Copy, Debug, PartialEq, Eq)]
pub struct DaySums {
    pub import: u64,
    pub export: u64,
}

fn blank_number(flag: Flag) -> u64
    ensures { Figure 1 (is_blank (flag_meant flag)) result }
{
    u64::from(matches!(flag, Flag::N))
}

pub fn difference(import: u64, export: u64) -> i64
    requires { (import < 9223372036854775808) × (export < 9223372036854775808) }
    ensures { result ≡ pos import -ℤ pos export }
{
    import as i64 - export as i64
}

fn put_net(numbers: &mut [i64], k: u64, import: u64, export: u64)
    requires { (k < length numbers.old) × (import < 9223372036854775808) × (export < 9223372036854775808) }
    ensures { numbers.new ≡ set numbers.old k (pos import -ℤ pos export) }
{
    numbers[k as usize] = difference(import, export);
}

// A mark says that one of the cells is N.
fn put_mark(marks: &mut [u8], k: u64, import_blanks: u64, export_blanks: u64)
    requires { (k < length marks.old) × (import_blanks ≤ 64) × (export_blanks ≤ 64) }
    ensures { marks.new ≡ set marks.old k (cond (eqb (import_blanks + export_blanks) 0) 0 1) }
{
    let blanks = import_blanks + export_blanks;
    marks[k as usize] = u8::from(blanks != 0);
}

// Over the period that comes after `k` others. The column is each member's own, so cells and date stay apart from it.
fn side_sum(cells: &[u64], column: Column, date: u64, k: u64, members: &[u64]) -> SideSum
    requires { Reaches cells.now column date × (k < column.periods) × Among column.categories members.now }
    ensures { SideSummed cells.now column date k members.now result.value result.blanks }
{
    let mut value: u64 = 0;
    let mut blanks: u64 = 0;
    for category in members {
        let cell = cell_at(cells, beside(column, *category), date, k);
        value += cell.value;
        blanks += blank_number(cell.flag);
    }
    SideSum { value, blanks }
}

pub fn write_periods(
    cells: &[u64],
    column: Column,
    date: u64,
    imports: &[u64],
    exports: &[u64],
    numbers: &mut [i64],
    marks: &mut [u8],
) -> DaySums
    requires { Reaches cells.now column date × Among column.categories imports.now × Among column.categories exports.now × (column.periods ≤ length numbers.old) × (column.periods ≤ length marks.old) }
    ensures { DayWritten cells.now column date imports.now exports.now numbers.old numbers.new marks.old marks.new result.import result.export }
{
    let periods = column.periods;
    let mut import: u64 = 0;
    let mut export: u64 = 0;
    for k in 0..periods {
        let plus = side_sum(cells, column, date, k, imports);
        let minus = side_sum(cells, column, date, k, exports);
        put_net(numbers, k, plus.value, minus.value);
        put_mark(marks, k, plus.blanks, minus.blanks);
        import += plus.value;
        export += minus.value;
    }
    DaySums { import, export }
}
