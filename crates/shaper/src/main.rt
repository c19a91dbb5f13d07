// The command program, with parts for 3 categories, 4 meters, 384 date-periods and 8 day types.
#![tactic(auto)]

use commands::Capacity;
use session::Lent;

fn main(rt: HostRuntime) {
    let mut category_records = [0u8; 24];
    let mut day_types = [0u8; 8];
    let mut settings = [0u8; 72];
    let mut meters = [0u64; 164];
    let mut readings = [0u64; 1568];
    let mut cells = [0u64; 1152];
    let mut days = [0u64; 96];
    let mut lent = Lent {
        category_records: &mut category_records,
        day_types: &mut day_types,
        settings: &mut settings,
        meters: &mut meters,
        readings: &mut readings,
        cells: &mut cells,
        days: &mut days,
        capacity: Capacity {
            meters: 4,
            date_periods: 384,
        },
    };
    console::converse(&rt, &mut lent);
}
