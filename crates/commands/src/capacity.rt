// What a program's parts have room for.
ghost use Rattle.std.specs.Prelude.{◌≡◌};
ghost use Rattle.commands.specs.Commands.{parts_suffice};

// The most meters, and the most periods over all dates.
#[derive(Clone, Copy)]
pub struct Capacity {
    pub meters: u64,
    pub date_periods: u64,
}

// Durations other than 15 and 30 are refused before the parts count.
#[tactic(auto, unfolding(crate::specs::Commands::parts_suffice))]
pub fn parts_suffice(capacity: Capacity, duration: u64, meters: u64, dates: u64) -> bool
    ensures { result ≡ parts_suffice capacity duration meters dates }
{
    if capacity.meters < meters {
        return false;
    }
    if duration == 15 {
        return dates <= capacity.date_periods / 96;
    }
    dates <= capacity.date_periods / 48
}
