// The least length of each part.
ghost use Rattle.std.specs.Prelude.{◌≡◌, ◌≤◌};
ghost use Rattle.ledger.specs.Sizes.{settings_length, meters_length, readings_length, cells_length, days_length};

// Of the settings, before the category records.
pub const HEADER_LENGTH: u64 = 40;

#[tactic(auto, unfolding(ledger::specs::Sizes::settings_length))]
pub fn settings_length(categories: u64, dates: u64) -> u64
    requires { (categories ≤ 64) × (dates ≤ 800) }
    ensures { result ≡ settings_length categories dates }
{
    HEADER_LENGTH + 8 * categories + dates
}

#[tactic(auto, unfolding(ledger::specs::Sizes::meters_length))]
pub fn meters_length(meters: u64) -> u64
    requires { meters ≤ 1024 }
    ensures { result ≡ meters_length meters }
{
    meters + 40 * meters
}

#[tactic(auto, unfolding(ledger::specs::Sizes::readings_length))]
pub fn readings_length(meters: u64, dates: u64, periods: u64) -> u64
    requires { (meters ≤ 1024) × (dates ≤ 800) × (periods ≤ 96) }
    ensures { result ≡ readings_length meters dates periods }
{
    dates * meters * (1 + periods)
}

#[tactic(auto, unfolding(ledger::specs::Sizes::cells_length))]
pub fn cells_length(categories: u64, dates: u64, periods: u64) -> u64
    requires { (categories ≤ 64) × (dates ≤ 800) × (periods ≤ 96) }
    ensures { result ≡ cells_length categories dates periods }
{
    dates * (categories * periods)
}

#[tactic(auto, unfolding(ledger::specs::Sizes::days_length))]
pub fn days_length(categories: u64, dates: u64) -> u64
    requires { (categories ≤ 64) × (dates ≤ 800) }
    ensures { result ≡ days_length categories dates }
{
    4 * categories * dates
}
