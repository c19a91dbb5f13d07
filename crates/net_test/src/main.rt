// The command program with parts for 12 categories, 12 meters and 12 dates of 48 periods. Behind its answers it writes all nets of the store that the commands left.
#![tactic(auto)]

mod nets;
mod show;

use commands::Capacity;
use session::{Lent, Stage};

fn main(rt: HostRuntime) {
    let mut category_records = [0u8; 96];
    let mut day_types = [0u8; 12];
    let mut settings = [0u8; 148];
    let mut meters = [0u64; 492];
    let mut readings = [0u64; 7056];
    let mut cells = [0u64; 6912];
    let mut days = [0u64; 576];
    let mut lent = Lent {
        category_records: &mut category_records,
        day_types: &mut day_types,
        settings: &mut settings,
        meters: &mut meters,
        readings: &mut readings,
        cells: &mut cells,
        days: &mut days,
        capacity: Capacity {
            meters: 12,
            date_periods: 576,
        },
    };
    let end = console::converse(&rt, &mut lent);
    match end {
        Stage::WriteFailed => {}
        _ => {
            nets::all_nets(&rt, &settings, &cells, &days, false);
            nets::all_nets(&rt, &settings, &cells, &days, true);
            nets::other_lengths(&rt, &settings, &cells, &days);
            nets::without_the_last_cell(&rt, &settings, &cells, &days);
        }
    }
}
