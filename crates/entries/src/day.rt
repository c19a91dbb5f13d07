// The entries of a category's day, and what a cell's entry counts for in them.
ghost use Rattle.std.specs.Prelude.{◌≡◌, ◌%◌, ◌<◌, ◌≤◌};
ghost use Rattle.ledger.specs.Method.{is_fresh, is_blank, origin_of};
ghost use Rattle.ledger.specs.Store.{cell_of_entry, day_entry, tot_entry, counts_of, day_fresh, day_blanks, energy_of, run_dates_of};
ghost use Rattle.entries.specs.Sums.{Figure};

// Flag, count, origin and remainder stand in the lower half of a cell's entry, and 32 bits are counted faster than 64.
pub fn lower_half(entry: u64) -> u32
    ensures { result ≡ entry % 4294967296 }
{
    (entry % 4294967296) as u32
}

// 1 or 0 and no bool, here and below: a row's are summed.
#[tactic(auto, unfolding(ledger::specs::Store::cell_of_entry, ledger::specs::Store::flag_number_of))]
pub fn fresh_in(half: u32) -> u32
    ensures value { result ≡ is_fresh (cell_of_entry half).flag }
    ensures upper_bound { result ≤ 1 }
{
    let flag = half % 4;
    u32::from(flag == 1 || flag == 2)
}

#[tactic(auto, unfolding(ledger::specs::Store::cell_of_entry, ledger::specs::Store::flag_number_of))]
pub fn blank_in(half: u32) -> u32
    ensures value { result ≡ is_blank (cell_of_entry half).flag }
    ensures upper_bound { result ≤ 1 }
{
    u32::from(half % 4 == 0)
}

// An N cell has no origin, which counts as the highest.
#[tactic(auto, using(crate::proofs::DayLaws::no_origin, crate::proofs::DayLaws::shape_origin))]
pub fn origin_in(half: u32) -> u32
    ensures { result ≡ origin_of (cell_of_entry half) }
{
    if blank_in(half) == 1 {
        return 65535;
    }
    half / 4096 % 1024
}

#[tactic(auto, unfolding(ledger::specs::Store::cell_of_entry))]
pub fn value_in(entry: u64) -> u64
    ensures { Figure 4294967295 (cell_of_entry entry).value result }
{
    entry / 4294967296
}

// FRESH, BLANK and the oldest origin of a run date.
#[tactic(auto, unfolding(ledger::specs::Store::day_entry))]
pub fn day_entry(fresh: u64, blanks: u64, oldest: u64) -> u64
    requires { (fresh ≤ 96) × (blanks ≤ 96) × (oldest ≤ 65535) }
    ensures { result ≡ day_entry fresh blanks oldest }
{
    fresh + 65536 * blanks + 4294967296 * oldest + 281474976710656
}

// TOT of a run date, which counts as one.
#[tactic(auto, unfolding(ledger::specs::Store::tot_entry))]
pub fn tot_entry(tot: u64) -> u64
    requires { tot < 281474976710656 }
    ensures { result ≡ tot_entry tot }
{
    tot + 281474976710656
}

// The Wh in an entry of TOT or OFF, or in a sum of such entries; 48 bits.
#[tactic(auto, unfolding(ledger::specs::Store::energy_of))]
pub fn energy_of(entry: u64) -> u64
    ensures { Figure 281474976710655 (energy_of entry) result }
{
    entry % 281474976710656
}

// And the number of run dates.
#[tactic(auto, unfolding(ledger::specs::Store::run_dates_of))]
pub fn run_dates_of(entry: u64) -> u64
    ensures { result ≡ run_dates_of entry }
{
    entry / 281474976710656
}

// FRESH of a day, BLANK, and both in one number.
#[tactic(auto, unfolding(ledger::specs::Store::day_fresh))]
pub fn day_fresh(entry: u64) -> u64
    ensures { result ≡ day_fresh entry }
{
    entry % 65536
}

#[tactic(auto, unfolding(ledger::specs::Store::day_blanks))]
pub fn day_blanks(entry: u64) -> u64
    ensures { result ≡ day_blanks entry }
{
    entry / 65536 % 65536
}

#[tactic(auto, unfolding(ledger::specs::Store::counts_of))]
pub fn day_counts(entry: u64) -> u64
    ensures { result ≡ counts_of entry }
{
    entry % 4294967296
}
