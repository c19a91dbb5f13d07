// The threshold that tells who gets one of the Wh left over: at most as many remainders are above it, and at least as many reach it.
ghost use Rattle.std.specs.Prelude.{◌≤◌, ◌≡◌, length};
ghost use Rattle.ledger.specs.Threshold.{reaching};
ghost use Rattle.entries.specs.Sums.{Figure};
ghost use Rattle.fill.specs.Sharing.{remainder_in, MaySearch, Tells};

use crate::division::Part;

// How many of the remainders are at least `least`. A loop, since `filter` and `count` are not made vector code.
#[tactic(auto, unfolding(ledger::specs::Threshold::reaching))]
pub fn reaching(parts: &[Part], least: u64) -> u64
    requires { length parts.now ≤ 96 }
    ensures { Figure 96 (reaching (length parts.now) (remainder_in parts.now) least) result }
{
    let mut count = 0;
    for part in parts {
        count += u64::from(least <= part.remainder);
    }
    count
}

// No remainder is above `most`. The search halves what lies between two bounds, and ends early where exactly `left` are above.
pub fn threshold(parts: &[Part], most: u64, left: u64) -> u64
    requires { MaySearch parts.now most left }
    ensures { Tells (length parts.now) (remainder_in parts.now) left most result }
{
    let mut low: u64 = 0;
    let mut high = most;
    while low < high {
        let middle = low + (high - low) / 2;
        let above = reaching(parts, middle + 1);
        if above == left {
            return middle;
        }
        if above < left {
            high = middle;
        } else {
            low = middle + 1;
        }
    }
    low
}
