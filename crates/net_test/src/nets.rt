// Net reads, a line for each. Their lists come with entries that none of these nets has, so that it shows which ones are written.
ghost use Rattle.std.specs.Prelude.{◌≤◌};

use crate::show;

// The lists have 50 entries, of which so many are lent.
fn net_line(
    rt: &HostRuntime,
    settings: &[u8],
    cells: &[u64],
    days: &[u64],
    date: u64,
    category: u64,
    all_groups: bool,
    numbers_lent: usize,
    marks_lent: usize,
)
    requires { (numbers_lent ≤ 50) × (marks_lent ≤ 50) }
{
    let mut numbers = [-7i64; 50];
    let mut marks = [9u8; 50];
    let outcome = engine::read_net(
        settings,
        cells,
        days,
        date,
        category,
        all_groups,
        &mut numbers[..numbers_lent],
        &mut marks[..marks_lent],
    );
    show::question(rt, date, category, all_groups);
    match outcome {
        Ok(net) => {
            show::accepted(rt, net);
            show::numbers(rt, &numbers);
            show::marks(rt, &marks);
        }
        Err(refusal) => {
            show::refused(rt, refusal);
            show::kept(rt, &numbers, &marks);
        }
    }
    show::end_of_line(rt);
}

// All categories of a date, and one past the last.
fn nets_of_date(
    rt: &HostRuntime,
    settings: &[u8],
    cells: &[u64],
    days: &[u64],
    date: u64,
    all_groups: bool,
) {
    for category in 0..=12 {
        net_line(
            rt, settings, cells, days, date, category, all_groups, 50, 50,
        );
    }
}

// All dates, and one past the last.
pub fn all_nets(rt: &HostRuntime, settings: &[u8], cells: &[u64], days: &[u64], all_groups: bool) {
    for date in 0..=12 {
        nets_of_date(rt, settings, cells, days, date, all_groups);
    }
}

// Lists that just suffice, and lists that are an entry short.
pub fn other_lengths(rt: &HostRuntime, settings: &[u8], cells: &[u64], days: &[u64]) {
    net_line(rt, settings, cells, days, 0, 0, false, 48, 48);
    net_line(rt, settings, cells, days, 0, 0, true, 48, 48);
    net_line(rt, settings, cells, days, 0, 0, false, 47, 48);
    net_line(rt, settings, cells, days, 0, 0, true, 48, 47);
    net_line(rt, settings, cells, days, 12, 12, false, 47, 47);
}

pub fn without_the_last_cell(rt: &HostRuntime, settings: &[u8], cells: &[u64], days: &[u64]) {
    if 0 < cells.len() {
        let end = cells.len() - 1;
        net_line(rt, settings, &cells[..end], days, 0, 0, false, 48, 48);
    }
}
