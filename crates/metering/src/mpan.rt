// MPAN check: the range of 13 digits and the industry check digit.
ghost use Rattle.std.specs.Prelude.{◌≡◌};
ghost use Rattle.metering.specs.Mpan.{weighted_sum, mpan_valid};

const WEIGHTS: [u64; 12] = [3, 5, 7, 13, 17, 19, 23, 29, 31, 37, 41, 43];

// The digits come off the right, so the table is walked from its end.
#[tactic(auto, unfolding(crate::specs::Mpan::weighted_sum, crate::specs::Mpan::weights))]
fn weighted_sum(mpan: u64) -> u64
    ensures { result ≡ weighted_sum mpan }
{
    let mut rest = mpan / 10;
    let mut sum: u64 = 0;
    for weight in WEIGHTS.iter().rev() {
        sum += weight * (rest % 10);
        rest /= 10;
    }
    sum
}

#[tactic(auto, using(crate::proofs::Laws::digit_last), unfolding(crate::specs::Mpan::mpan_valid, crate::specs::Mpan::check_digit))]
pub fn mpan_valid(mpan: u64) -> bool
    ensures { result ≡ mpan_valid mpan }
{
    (1..=9999999999999).contains(&mpan) && weighted_sum(mpan) % 11 % 10 == mpan % 10
}
