// What a dialogue holds between two commands.
use commands::Capacity;

#[derive(Clone, Copy, Debug, PartialEq, Eq)]
pub enum Stage {
    // There may be a command at hand.
    Going,
    // The output block has no room for another line.
    Full,
    // The bytes at hand end before a command does.
    Short,
    // All of the input was taken.
    InputEnd,
    // The bytes at hand are no command, or the input ended within one: `bad` is said.
    SaidBad,
    ReadFailed,
    WriteFailed,
}

// The input block's next byte and the one past its last; how much of the lent category records
// and day types is collected; how much of the output block waits; how many turns there may be yet.
#[derive(Clone, Copy, Debug, PartialEq, Eq)]
pub struct Session {
    pub at: usize,
    pub end: usize,
    pub category_bytes: usize,
    pub day_types: usize,
    pub waiting: usize,
    pub turns: u64,
    pub stage: Stage,
}

// What is lent for a whole dialogue: room for the category records and day types that are
// collected, and the parts of the store.
#[derive(Drop)]
pub struct Lent<'a> {
    pub category_records: &'a mut [u8],
    pub day_types: &'a mut [u8],
    pub settings: &'a mut [u8],
    pub meters: &'a mut [u64],
    pub readings: &'a mut [u64],
    pub cells: &'a mut [u64],
    pub days: &'a mut [u64],
    pub capacity: Capacity,
}
