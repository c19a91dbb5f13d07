// TOT7 of a side, from the days.
ghost use Rattle.std.specs.Prelude.{length};
ghost use Rattle.net.specs.Walk.{InDays, SummedOver, week_tot};

use day_reads::sums::dates_sum;
use entries::day::energy_of;
use store::day_rows::{DayRow, day_index};

pub fn week_sum(days: &[u64], dates: u64, date: u64, members: &[u64]) -> u64
    requires { InDays (length days.now) dates date members.now }
    ensures { SummedOver members.now 281474976710655 (week_tot days.now dates date) result }
{
    let mut sum: u64 = 0;
    for category in members {
        let at = day_index(dates, *category, DayRow::Tot, date);
        sum += energy_of(dates_sum(days, at, date, 7));
    }
    sum
}
