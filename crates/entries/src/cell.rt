// A cell by value, and the two leaves that read and put its entry: `cell_of_entry` and `entry_of`.
ghost use Rattle.std.specs.Prelude.{◌≡◌, ◌<◌};
ghost use Rattle.std.specs.Int.Signed.{mag};
ghost use Rattle.ledger.specs.Method.{flag_number, letter_of, blank, own_cell, pooled_cell, is_own_cell, carried};
ghost use Rattle.ledger.specs.Store.{flag_of, flag_number_of, remainder_bits, entry_of, FitsEntry, cell_of_entry};
ghost use Rattle.entries.specs.Cell.{flag_meant, cell_meant};

use metering::average::Average;

#[derive(Clone, Copy, Debug, PartialEq, Eq)]
pub enum Flag {
    A,
    D,
    E,
    N,
}

// Methods and no `From`: only this module knows an entry's numbers.
impl Flag {
    // Of an entry's number; any other is N.
    fn from_number(number: u64) -> Flag
        ensures { flag_meant result ≡ flag_of number }
    {
        match number {
            1 => Flag::A,
            2 => Flag::D,
            3 => Flag::E,
            _ => Flag::N,
        }
    }

    fn number(self) -> u64
        ensures { result ≡ flag_number (flag_meant self) }
    {
        match self {
            Flag::A => 1,
            Flag::D => 2,
            Flag::E => 3,
            Flag::N => 0,
        }
    }
}

#[derive(Clone, Copy, Debug, PartialEq, Eq)]
pub struct Cell {
    pub flag: Flag,
    pub value: u64,
    pub count: u64,
    pub origin: u64,
    pub remainder: i64,
}

impl Cell {
    // An average on a date, under a flag.
    fn averaged(flag: Flag, date: u64, average: Average, count: u64) -> Cell
        ensures { result ≡ record { flag = flag; value = average.value; count = count; origin = date; remainder = average.remainder } }
    {
        Cell {
            flag,
            value: average.value,
            count,
            origin: date,
            remainder: average.remainder,
        }
    }

    // The average of a category's own readings on the date.
    pub fn own(date: u64, average: Average, count: u64) -> Cell
        ensures { cell_meant result ≡ own_cell date average.value count average.remainder }
    {
        Cell::averaged(Flag::A, date, average, count)
    }

    // The average over its family.
    pub fn pooled(date: u64, average: Average, count: u64) -> Cell
        ensures { cell_meant result ≡ pooled_cell date average.value count average.remainder }
    {
        Cell::averaged(Flag::D, date, average, count)
    }

    #[tactic(auto, unfolding(ledger::specs::Method::blank))]
    pub fn blank() -> Cell
        ensures { cell_meant result ≡ blank }
    {
        Cell {
            flag: Flag::N,
            value: 0,
            count: 0,
            origin: 65535,
            remainder: 0,
        }
    }

    // Whether it is its date's own shape.
    #[tactic(auto, unfolding(ledger::specs::Method::is_own_cell))]
    pub fn is_own(self) -> bool
        ensures { result ≡ is_own_cell (cell_meant self) }
    {
        matches!(self.flag, Flag::A | Flag::D)
    }

    // What a later date takes over: the same under flag E, and nothing from nothing.
    #[tactic(auto, unfolding(ledger::specs::Method::carried))]
    pub fn carried(self) -> Cell
        ensures { cell_meant result ≡ carried (cell_meant self) }
    {
        match self.flag {
            Flag::N => Cell::blank(),
            _ => Cell {
                flag: Flag::E,
                ..self
            },
        }
    }
}

#[tactic(auto, unfolding(ledger::specs::Store::flag_number_of))]
fn flag_number(entry: u64) -> u64
    ensures { result ≡ flag_number_of entry }
{
    entry % 4
}

// A flag's letter in ASCII. A function, as the engine hands it on.
pub fn letter(flag: Flag) -> u8
    ensures { result ≡ letter_of (flag_meant flag) }
{
    match flag {
        Flag::A => b'A',
        Flag::D => b'D',
        Flag::E => b'E',
        Flag::N => b'N',
    }
}

#[tactic(auto, unfolding(ledger::specs::Store::cell_of_entry, ledger::specs::Method::blank))]
pub fn cell_of_entry(entry: u64) -> Cell
    ensures { cell_meant result ≡ cell_of_entry entry }
{
    let number = flag_number(entry);
    let value = entry / 4294967296;
    if number == 0 {
        return Cell {
            value,
            ..Cell::blank()
        };
    }
    Cell {
        flag: Flag::from_number(number),
        value,
        count: entry / 4 % 1024 + 1,
        origin: entry / 4096 % 1024,
        remainder: (entry / 4194304 % 1024) as i64 - 512,
    }
}

// A remainder from -512 to 511, plus 512.
fn remainder_bits(remainder: i64) -> u64
    requires { mag remainder < 512 }
    ensures { result ≡ remainder_bits remainder }
{
    (remainder + 512) as u64
}

// No `From`: a cell has to fit.
#[tactic(auto, unfolding(ledger::specs::Store::entry_of, ledger::specs::Store::count_and_origin))]
pub fn entry_of(cell: Cell) -> u64
    requires { FitsEntry (cell_meant cell) }
    ensures { result ≡ entry_of (cell_meant cell) }
{
    let number = cell.flag.number();
    let above = 4194304 * remainder_bits(cell.remainder) + 4294967296 * cell.value;
    if number == 0 {
        return above;
    }
    number + 4 * (cell.count - 1) + 4096 * cell.origin + above
}
