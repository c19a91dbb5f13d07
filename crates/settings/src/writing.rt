// The settings as an opening writes them: the header with the windows, the category records and the day types.
ghost use Rattle.std.specs.Prelude.{◌≡◌, true, ◌+◌, ◌<◌, ◌≤◌, length, get_or};
ghost use Rattle.std.proofs.lemmas.List.Edits.{sets};
ghost use Rattle.ledger.specs.Sizes.{header_length, settings_length};
ghost use Rattle.ledger.specs.Opening.{categories, dates};
ghost use Rattle.ledger.specs.Checks.{sizes_valid};
ghost use Rattle.ledger.specs.Store.{word_bytes, minute_bytes, header_bytes};
ghost use Rattle.ledger.specs.Calls.{opened_settings};
ghost use Rattle.settings.specs.Opening.{opening_call, MinutesOfDay};

use crate::sizes::HEADER_LENGTH;

// Big-endian.
#[tactic(auto, unfolding(ledger::specs::Store::word_bytes))]
fn put_word(part: &mut [u8], at: usize, n: u64)
    requires { (at + 1 < length part.old) × (n < 65536) }
    ensures { part.new ≡ sets part.old at (word_bytes n) }
{
    part[at..at + 2].copy_from_slice(&(n as u16).to_be_bytes());
}

// A loop and no `copy_from_slice`, which would need memmove: the library for C needs memcpy and memset alone.
fn copy(part: &mut [u8], at: usize, source: &[u8])
    requires { at + length source.now ≤ length part.old }
    ensures { part.new ≡ sets part.old at source.now }
{
    for (k, byte) in source.iter().enumerate() {
        part[at + k] = *byte;
    }
}

// The numbers of an opening. The minutes of its windows, its category records and its day types are lent beside them.
#[derive(Clone, Copy, Debug, PartialEq, Eq)]
pub struct OpeningTerms {
    pub duration: u64,
    pub meters: u64,
}

// 0 where there are no more.
fn minute_at(windows: &[u64], k: usize) -> u64
    ensures { result ≡ get_or windows.now k 0 }
{
    windows.get(k).copied().unwrap_or(0)
}

// Eight windows behind the first four numbers.
#[tactic(auto, unfolding(ledger::specs::Store::minute_bytes))]
fn write_windows(settings: &mut [u8], windows: &[u64])
    requires minutes_of_day { MinutesOfDay windows.now }
    requires header_length_in_bounds { header_length ≤ length settings.old }
    ensures { settings.new ≡ sets settings.old 8 (minute_bytes 16 windows.now) }
{
    for k in 0..16 {
        put_word(settings, 8 + 2 * k, minute_at(windows, k));
    }
}

// Numbers of two bytes.
fn write_header(
    settings: &mut [u8],
    terms: OpeningTerms,
    windows: &[u64],
    category_records: &[u8],
    day_types: &[u8],
)
    requires day_types_value { sizes_valid (opening_call terms windows.now category_records.now day_types.now) ≡ true }
    requires minutes_of_day { MinutesOfDay windows.now }
    requires header_length_in_bounds { header_length ≤ length settings.old }
    ensures { settings.new ≡ sets settings.old 0 (header_bytes (opening_call terms windows.now category_records.now day_types.now)) }
{
    put_word(settings, 0, terms.duration);
    put_word(settings, 2, terms.meters);
    put_word(settings, 4, (category_records.len() / 8) as u64);
    put_word(settings, 6, day_types.len() as u64);
    write_windows(settings, windows);
}

#[tactic(auto, unfolding(ledger::specs::Sizes::settings_length))]
pub fn write_settings(
    settings: &mut [u8],
    terms: OpeningTerms,
    windows: &[u64],
    category_records: &[u8],
    day_types: &[u8],
)
    requires day_types_value { sizes_valid (opening_call terms windows.now category_records.now day_types.now) ≡ true }
    requires minutes_of_day { MinutesOfDay windows.now }
    requires day_types_in_bounds { settings_length (categories (opening_call terms windows.now category_records.now day_types.now)) (dates (opening_call terms windows.now category_records.now day_types.now)) ≤ length settings.old }
    ensures { settings.new ≡ opened_settings (opening_call terms windows.now category_records.now day_types.now) settings.old }
{
    let records = HEADER_LENGTH as usize;
    write_header(settings, terms, windows, category_records, day_types);
    copy(settings, records, category_records);
    copy(settings, records + category_records.len(), day_types);
}
