// Calendar: periods of a day, the period that a minute closes, and windows of the day.
ghost use Rattle.std.specs.Prelude.{◌≡◌, ◌⊎◌, ◌<◌, MatchOption};
ghost use Rattle.metering.specs.Calendar.{duration_known, periods_per_day, period_ending, window_valid, BegunBefore, EndedBy, PeriodsWithin};

#[tactic(auto, unfolding(crate::specs::Calendar::duration_known))]
pub fn duration_known(duration: u64) -> bool
    ensures { result ≡ duration_known duration }
{
    duration == 15 || duration == 30
}

#[tactic(auto, unfolding(crate::specs::Calendar::periods_per_day))]
pub fn periods_per_day(duration: u64) -> u64
    requires { 0 < duration }
    ensures { result ≡ periods_per_day duration }
{
    1440 / duration
}

// The period that a minute closes. Periods count from 1: where the definition is 0 there is none.
#[tactic(auto, using(crate::proofs::Laws::period_counts), unfolding(crate::specs::Calendar::period_ending))]
pub fn period_ending(duration: u64, minute: u64) -> Option<u64>
    requires { 0 < duration }
    ensures { MatchOption result (period_ending duration minute ≡ 0) (λ period. (period ≡ period_ending duration minute) × (0 < period)) }
{
    let is_end = minute.is_multiple_of(duration) && (1..=1440).contains(&minute);
    is_end.then_some(minute / duration)
}

// Whether minutes make a window: both on the grid of the duration, in order, and within the day.
#[tactic(auto, unfolding(crate::specs::Calendar::window_valid))]
pub fn window_valid(duration: u64, start: u64, end: u64) -> bool
    requires { 0 < duration }
    ensures { result ≡ window_valid duration start end }
{
    start.is_multiple_of(duration) && end.is_multiple_of(duration) && start < end && end <= 1440
}

// How many periods begin before a minute.
fn begun_before(duration: u64, minute: u64) -> u64
    requires { (duration ≡ 15) ⊎ (duration ≡ 30) }
    ensures { BegunBefore duration minute result }
{
    minute.div_ceil(duration)
}

// How many periods of a day end by a minute.
#[tactic(auto, unfolding(crate::specs::Calendar::periods_per_day))]
fn ended_by(duration: u64, minute: u64) -> u64
    requires { (duration ≡ 15) ⊎ (duration ≡ 30) }
    ensures { EndedBy duration minute result }
{
    minute.min(1440) / duration
}

// Periods that stand side by side: how many come before them, and how many they are.
#[derive(Clone, Copy, Debug, PartialEq, Eq)]
pub struct Stretch {
    pub first: u64,
    pub count: u64,
}

// The periods of a day that lie wholly between two minutes, which may be any. Both ends count: a period may start with the one and end
// with the other.
pub fn periods_within(duration: u64, start: u64, end: u64) -> Stretch
    requires { (duration ≡ 15) ⊎ (duration ≡ 30) }
    ensures { PeriodsWithin duration start end result }
{
    let first = begun_before(duration, start);
    let last = ended_by(duration, end);
    if last <= first {
        return Stretch { first: 0, count: 0 };
    }
    Stretch {
        first,
        count: last - first,
    }
}
