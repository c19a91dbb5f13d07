// A row copied, what later dates inherit from one, and a later run date's row.
#![tactic(auto)]

ghost use Rattle.std.specs.Prelude.{◌≡◌, ◌≤◌, length, get_or};
ghost use Rattle.ledger.specs.Table.{tabulate, filling};
ghost use Rattle.ledger.specs.Calls.{carried_entry, differing, followed_entry, inherited_beyond, overwritten};

use entries::entry;

// The copy is the front of a list that has room for it.
#[tactic(auto, unfolding(ledger::specs::Calls::overwritten))]
pub fn copy_row(row: &[u64], copy: &mut [u64])
    requires { length row.now ≤ length copy.old }
    ensures { copy.new ≡ overwritten row.now copy.old }
{
    for (k, entry) in row.iter().enumerate() {
        copy[k] = *entry;
    }
}

// What the date after a row takes over from it.
pub fn carry_row(row: &[u64], inherited: &mut [u64])
    requires { length row.now ≤ length inherited.old }
    ensures { inherited.new ≡ filling (length row.now) (λ k. carried_entry (get_or row.now k 0)) inherited.old }
{
    for (k, entry) in row.iter().enumerate() {
        inherited[k] = entry::carried_entry(*entry);
    }
}

#[tactic(auto, unfolding(ledger::specs::Calls::followed_entry))]
fn followed(old: u64, inherited: u64) -> u64
    ensures { result ≡ followed_entry old inherited }
{
    if entry::is_own(old) {
        return old;
    }
    inherited
}

#[tactic(auto, unfolding(ledger::specs::Calls::inherited_beyond))]
fn inherited_beyond(old: u64, inherited: u64) -> u64
    ensures { result ≡ inherited_beyond old inherited }
{
    if entry::is_own(old) {
        return entry::carried_entry(old);
    }
    inherited
}

// A later run date's row: its own shapes stand, its other cells follow the predecessor. Counts those that move, and leaves in `inherited` what
// the date after it takes over. One loop, since a row is read once.
pub fn follow_row(row: &mut [u64], inherited: &mut [u64]) -> u64
    requires { length row.old ≤ length inherited.old }
    ensures row_after { row.new ≡ tabulate (length row.old) (λ k. followed_entry (get_or row.old k 0) (get_or inherited.old k 0)) }
    ensures inherited_after { inherited.new ≡ filling (length row.old) (λ k. inherited_beyond (get_or row.old k 0) (get_or inherited.old k 0)) inherited.old }
    ensures value { result ≡ differing (length row.old) (λ k. get_or row.old k 0) (λ k. followed_entry (get_or row.old k 0) (get_or inherited.old k 0)) }
{
    let mut moved: u64 = 0;
    for (k, entry) in row.iter_mut().enumerate() {
        let old = *entry;
        let before = inherited[k];
        let new = followed(old, before);
        moved += entry::moved_entry(old, new);
        *entry = new;
        inherited[k] = inherited_beyond(old, before);
    }
    moved
}
