// Averaging to whole Wh, halves up, with what rounding drops.
ghost use Rattle.std.specs.Prelude.{◌≡◌, ◌*◌, ◌<◌, ◌^◌};
ghost use Rattle.metering.specs.Average.{average, remainder, annual};

#[derive(Clone, Copy, Debug, PartialEq, Eq)]
pub struct Average {
    pub value: u64,
    pub remainder: i64,
}

// What is left is compared with what it lacks of the count, so that nothing is doubled: right for every sum and count.
#[tactic(auto, using(crate::proofs::Laws::rounds_down, crate::proofs::Laws::rounds_up))]
pub fn average_up(sum: u64, count: u64) -> Average
    requires { 0 < count }
    ensures value_value { result.value ≡ average sum count }
    ensures remainder_value { result.remainder ≡ remainder sum count }
{
    let whole = sum / count;
    let left = sum % count;
    let lacking = count - left;
    if left < lacking {
        return Average {
            value: whole,
            remainder: left as i64,
        };
    }
    Average {
        value: whole + 1,
        remainder: -(lacking as i64),
    }
}

#[tactic(auto, unfolding(crate::specs::Average::annual))]
pub fn annual_figure(sum: u64, days: u64) -> u64
    requires { (0 < days) × (sum * 365 < 2 ^ 64) }
    ensures { result ≡ annual sum days }
{
    if days == 365 {
        return sum;
    }
    average_up(sum * 365, days).value
}
