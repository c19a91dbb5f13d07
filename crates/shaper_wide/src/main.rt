// The command program with parts for 8 categories, 8 meters and 370 dates of 96 periods, for what
// the standard ones have no room for.
#![tactic(auto)]

use commands::Capacity;
use session::Lent;

fn main(rt: HostRuntime) {
    let mut category_records = [0u8; 64];
    let mut day_types = [0u8; 370];
    let mut settings = [0u8; 474];
    let mut meters = [0u64; 328];
    let mut readings = [0u64; 287120];
    let mut cells = [0u64; 284160];
    let mut days = [0u64; 11840];
    let mut lent = Lent {
        category_records: &mut category_records,
        day_types: &mut day_types,
        settings: &mut settings,
        meters: &mut meters,
        readings: &mut readings,
        cells: &mut cells,
        days: &mut days,
        capacity: Capacity {
            meters: 8,
            date_periods: 35520,
        },
    };
    console::converse(&rt, &mut lent);
}
