// The numbers that the settings start with.
ghost use Rattle.std.specs.Prelude.{◌≡◌, ◌+◌, ◌*◌, ◌<◌, ◌≤◌, length};
ghost use Rattle.ledger.specs.Sizes.{header_length};
ghost use Rattle.ledger.specs.Store.{word, duration_of, meters_of, categories_of, dates_of, periods_of, window_of, is_opened, settings_ready};
ghost use Rattle.settings.specs.Window.{window_meant};

use crate::opened::Settings;
use crate::sizes::{HEADER_LENGTH, settings_length};
use metering::{calendar, range};

// Which number is which.
const DURATION: u64 = 0;

const METERS: u64 = 1;

const CATEGORIES: u64 = 2;

const DATES: u64 = 3;

#[tactic(auto, unfolding(ledger::specs::Store::word))]
fn word(bytes: &[u8], k: u64) -> u64
    requires { 2 * k + 1 < length bytes.now }
    ensures { result ≡ word bytes.now k }
{
    let at = 2 * k as usize;
    u64::from(u16::from_be_bytes([bytes[at], bytes[at + 1]]))
}

// Whether each number is one that an opening keeps.
#[tactic(auto, unfolding(ledger::specs::Store::is_opened, ledger::specs::Store::duration_of, ledger::specs::Store::meters_of, ledger::specs::Store::categories_of, ledger::specs::Store::dates_of))]
fn opened(bytes: &[u8]) -> bool
    requires { header_length ≤ length bytes.now }
    ensures { result ≡ is_opened bytes.now }
{
    calendar::duration_known(word(bytes, DURATION))
        && range::meters_in_range(word(bytes, METERS))
        && range::categories_in_range(word(bytes, CATEGORIES))
        && range::dates_in_range(word(bytes, DATES))
}

// A store of any bytes: fewer than the header's are too few to read its numbers.
#[tactic(auto, using(crate::proofs::Laws::opened_bounds, crate::proofs::Laws::short_unready), unfolding(ledger::specs::Store::settings_ready, ledger::specs::Store::categories_of, ledger::specs::Store::dates_of))]
pub(crate) fn settings_ready(bytes: &[u8]) -> bool
    ensures { result ≡ settings_ready bytes.now }
{
    let length = bytes.len() as u64;
    HEADER_LENGTH <= length
        && opened(bytes)
        && settings_length(word(bytes, CATEGORIES), word(bytes, DATES)) <= length
}

// An off-peak window, from its start to its end minute.
#[derive(Clone, Copy, Debug, PartialEq, Eq)]
pub struct Window {
    pub start: u64,
    pub end: u64,
}

// By its number; 0 is none, and so is what is past the eighth. Of any bytes that have a header, opened or not.
#[tactic(auto, using(metering::proofs::Laws::between_true), unfolding(ledger::specs::Store::window_of))]
pub fn window_of(settings: &[u8], number: u64) -> Window
    requires { header_length ≤ length settings.now }
    ensures { window_meant result ≡ window_of settings.now number }
{
    if !range::between(1, 8, number) {
        return Window { start: 0, end: 0 };
    }
    Window {
        start: word(settings, 2 * number + 2),
        end: word(settings, 2 * number + 3),
    }
}

impl<'a> Settings<'a> {
    #[tactic(auto, using(crate::proofs::Laws::header_there), unfolding(ledger::specs::Store::duration_of))]
    pub fn duration(self) -> u64
        ensures { result ≡ duration_of self.entry.bytes.now }
    {
        word(self.bytes, DURATION)
    }

    #[tactic(auto, using(crate::proofs::Laws::header_there), unfolding(ledger::specs::Store::meters_of))]
    pub fn meter_count(self) -> u64
        ensures { result ≡ meters_of self.entry.bytes.now }
    {
        word(self.bytes, METERS)
    }

    #[tactic(auto, using(crate::proofs::Laws::header_there), unfolding(ledger::specs::Store::categories_of))]
    pub fn category_count(self) -> u64
        ensures { result ≡ categories_of self.entry.bytes.now }
    {
        word(self.bytes, CATEGORIES)
    }

    #[tactic(auto, using(crate::proofs::Laws::header_there), unfolding(ledger::specs::Store::dates_of))]
    pub fn date_count(self) -> u64
        ensures { result ≡ dates_of self.entry.bytes.now }
    {
        word(self.bytes, DATES)
    }

    #[tactic(auto, using(crate::proofs::Laws::timed), unfolding(ledger::specs::Store::periods_of))]
    pub fn period_count(self) -> u64
        ensures { result ≡ periods_of self.entry.bytes.now }
    {
        calendar::periods_per_day(self.duration())
    }
}
