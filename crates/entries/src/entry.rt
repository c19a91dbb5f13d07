// What a run does with the entries of cells, said by their cells.
ghost use Rattle.std.specs.Prelude.{◌≡◌};
ghost use Rattle.ledger.specs.Calls.{carried_entry, is_own, compared_entry, moved_entry};

use crate::cell::{Cell, cell_of_entry, entry_of};

// The entry of the blank cell, as a constant.
pub const BLANK_ENTRY: u64 = 2147483648;

#[tactic(auto, using(ledger::proofs::Entries::read_fits, ledger::proofs::Entries::carried_fits), unfolding(ledger::specs::Calls::carried_entry))]
pub fn carried_entry(entry: u64) -> u64
    ensures { result ≡ carried_entry entry }
{
    entry_of(cell_of_entry(entry).carried())
}

#[tactic(auto, unfolding(ledger::specs::Calls::is_own))]
pub fn is_own(entry: u64) -> bool
    ensures { result ≡ is_own entry }
{
    cell_of_entry(entry).is_own()
}

// A date not run counts as blank.
#[tactic(auto, using(ledger::proofs::Entries::blank_fits), unfolding(ledger::specs::Calls::compared_entry))]
pub fn compared_entry(entry: u64) -> u64
    ensures { result ≡ compared_entry entry }
{
    if entry == 0 {
        entry_of(Cell::blank())
    } else {
        entry
    }
}

// 1 where the cell moved: an entry holds all five fields, so that two cells are alike where their entries are.
#[tactic(auto, unfolding(ledger::specs::Calls::moved_entry))]
pub fn moved_entry(a: u64, b: u64) -> u64
    ensures { result ≡ moved_entry a b }
{
    u64::from(a != b)
}
