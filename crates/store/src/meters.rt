// The meters part: MPANs first, so that the search reads one stretch, then eight registrations a slot.
ghost use Rattle.std.specs.Prelude.{◌≡◌, true, false, ◌&&◌, ◌+◌, ◌<◌, ◌≤◌, leb, eqb, length, IfSome, MatchOption};
ghost use Rattle.std.proofs.Math.Option.{none};
ghost use Rattle.store.specs.Meters.{registration_meant, found_meant, placed, key_by};
ghost use Rattle.ledger.specs.Sizes.{meters_length};
ghost use Rattle.ledger.specs.Checks.{moment_of, start_of, starts, latest_from, in_force, appointed, not_after_last};
ghost use Rattle.ledger.specs.Store.{mpan_at, slot_of, known_at, registration_at, registration_index, registrations_at, put_registration};

use crate::access::{entry_at, put_entry};

// The first slot that has the MPAN or is free, else the number of slots: that, and no `None`, since the ledger's `slot_of` and what
// callers promise say "the number of slots" too. Not inlined, since the search would then carry on what the caller makes of the slot.
#[tactic(auto, using(crate::proofs::Laws::slot_turns), unfolding(ledger::specs::Store::slot_of))]
#[inline(never)]
pub fn slot_of(slots: u64, mpan: u64, meters: &[u64]) -> u64
    requires { slots ≤ length meters.now }
    ensures { result ≡ slot_of slots mpan meters.now }
{
    for i in 0..slots {
        let kept = entry_at(meters, i);
        if kept == mpan || kept == 0 {
            return i;
        }
    }
    slots
}

#[tactic(auto, unfolding(ledger::specs::Store::mpan_at))]
pub fn has_mpan(meters: &[u64], slot: u64, mpan: u64) -> bool
    requires { slot < length meters.now }
    ensures { result ≡ eqb (mpan_at meters.now slot) mpan }
{
    entry_at(meters, slot) == mpan
}

// One number for a date and minute, in minutes from the beginning of date 0.
#[tactic(auto, unfolding(ledger::specs::Checks::moment_of))]
pub fn moment_of(date: u64, minute: u64) -> u64
    requires { (date < 800) × (minute < 1440) }
    ensures { result ≡ moment_of date minute }
{
    1440 * date + minute
}

// A registration starts on its date at minute 0, else on the next.
#[tactic(auto, unfolding(ledger::specs::Checks::start_of))]
pub fn start_of(date: u64, minute: u64) -> u64
    requires { date < 18446744073709551615 }
    ensures { result ≡ start_of date minute }
{
    if minute == 0 {
        return date;
    }
    date + 1
}

// The moment is date and minute as one number (`moment_of`).
#[derive(Clone, Copy, Debug, PartialEq, Eq)]
pub struct Registration {
    pub moment: u64,
    pub category: u64,
    pub sender: u64,
    pub status: u64,
    pub limit: u64,
}

impl Registration {
    #[tactic(auto, unfolding(ledger::specs::Checks::starts))]
    fn start(self) -> u64
        ensures { result ≡ starts (registration_meant self) }
    {
        start_of(self.moment / 1440, self.moment % 1440)
    }
}

// What a search for the latest registration goes by. An enum and no closure, whose contract would need a law beside it that says what
// it gives for each registration.
#[derive(Clone, Copy)]
enum Key {
    Start,
    Moment,
}

impl Key {
    fn of(self, registration: Registration) -> u64
        ensures { result ≡ key_by self (registration_meant registration) }
    {
        match self {
            Key::Start => registration.start(),
            Key::Moment => registration.moment,
        }
    }
}

// Whether the next key takes over: it is not past the bound, and of equals the one that came last is taken.
fn takes_over(bound: u64, best_key: u64, key: u64) -> bool
    ensures { result ≡ (leb key bound && leb best_key key) }
{
    key <= bound && best_key <= key
}

// All five entries of a registration are in the part.
#[tactic(auto, unfolding(ledger::specs::Store::registration_index, ledger::specs::Sizes::meters_length))]
fn registration_index(slots: u64, slot: u64, k: u64) -> u64
    requires { (slots ≤ 1024) × (slot < slots) × (k < 8) }
    ensures place { result ≡ registration_index slots slot k }
    ensures within { result + 4 < meters_length slots }
{
    slots + 40 * slot + 5 * k
}

// One slot of the part, with its eight registrations: those up to the first with status 0 are used.
#[derive(Clone, Copy)]
pub struct Slot<'a> {
    pub slots: u64,
    pub meters: &'a [u64],
    pub slot: u64,
    ghost few: { slots ≤ 1024 },
    ghost inside: { slot < slots },
    ghost room: { meters_length slots ≤ length meters.now },
}

impl<'a> Slot<'a> {
    // That of an MPAN; an unknown one has none.
    #[tactic(auto, using(crate::proofs::LentLaws::known_slot, crate::proofs::LentLaws::unknown_slot), unfolding(ledger::specs::Sizes::meters_length))]
    pub fn of_mpan(slots: u64, meters: &'a [u64], mpan: u64) -> Option<Slot<'a>>
        requires { (slots ≤ 1024) × (meters_length slots ≤ length meters.now) }
        ensures { MatchOption result (known_at slots mpan meters.now ≡ false) (λ s. (known_at slots mpan meters.now ≡ true) × (s.slots ≡ slots) × (s.meters.now ≡ meters.now) × (s.slot ≡ slot_of slots mpan meters.now)) }
    {
        let slot = slot_of(slots, mpan, meters);
        if slots <= slot {
            return None;
        }
        if !has_mpan(meters, slot, mpan) {
            return None;
        }
        Some(Slot {
            slots,
            meters,
            slot,
        })
    }

    // Registration k of the eight, used or not.
    #[tactic(auto, unfolding(ledger::specs::Store::registration_at))]
    pub fn registration(self, k: u64) -> Registration
        requires { k < 8 }
        ensures { registration_meant result ≡ registration_at self.entry.slots self.entry.meters.now self.entry.slot k }
    {
        let at = registration_index(self.slots, self.slot, k);
        Registration {
            moment: entry_at(self.meters, at),
            category: entry_at(self.meters, at + 1),
            sender: entry_at(self.meters, at + 2),
            status: entry_at(self.meters, at + 3),
            limit: entry_at(self.meters, at + 4),
        }
    }

    // The place of the latest, of those not past the bound. With none yet the best key is 0, which every key reaches. A place and a key,
    // since five entries kept from turn to turn take longer.
    #[tactic(auto, using(crate::proofs::Laws::used_turns), unfolding(ledger::specs::Store::registrations_at, ledger::specs::Checks::latest_from))]
    fn latest_place(self, key: Key, bound: u64) -> Option<u64>
        ensures within { IfSome result (λ k. k < 8) }
        ensures latest { placed self.entry.slots self.entry.meters.now self.entry.slot result ≡ latest_from (key_by key) bound none (registrations_at self.entry.slots self.entry.meters.now self.entry.slot) }
    {
        let mut best = None;
        let mut best_key = 0;
        for k in 0..8 {
            let next = self.registration(k);
            if next.status == 0 {
                return best;
            }
            let next_key = key.of(next);
            if takes_over(bound, best_key, next_key) {
                best = Some(k);
                best_key = next_key;
            }
        }
        best
    }

    fn latest(self, key: Key, bound: u64) -> Option<Registration>
        ensures { found_meant result ≡ latest_from (key_by key) bound none (registrations_at self.entry.slots self.entry.meters.now self.entry.slot) }
    {
        let k = self.latest_place(key, bound)?;
        Some(self.registration(k))
    }

    // The registration that gives category, status and limit on a date.
    #[tactic(auto, unfolding(ledger::specs::Checks::in_force))]
    pub fn in_force(self, date: u64) -> Option<Registration>
        ensures { found_meant result ≡ in_force date (registrations_at self.entry.slots self.entry.meters.now self.entry.slot) }
    {
        self.latest(Key::Start, date)
    }

    // The one that gives the sender: that of the date's midday.
    #[tactic(auto, unfolding(ledger::specs::Checks::appointed))]
    pub fn appointed(self, date: u64) -> Option<Registration>
        requires { date < 800 }
        ensures { found_meant result ≡ appointed date (registrations_at self.entry.slots self.entry.meters.now self.entry.slot) }
    {
        self.latest(Key::Moment, moment_of(date, 720))
    }

    // How many are used.
    #[tactic(auto, using(crate::proofs::Laws::used_turns), unfolding(ledger::specs::Store::registrations_at))]
    pub fn used(self) -> u64
        ensures { result ≡ length (registrations_at self.entry.slots self.entry.meters.now self.entry.slot) }
    {
        for k in 0..8 {
            if self.registration(k).status == 0 {
                return k;
            }
        }
        8
    }

    // Whether a start is not after that of the slot's last registration.
    #[tactic(auto, using(crate::proofs::Laws::used_turns), unfolding(ledger::specs::Store::registrations_at, ledger::specs::Checks::not_after_last))]
    pub fn start_not_after_last(self, start: u64) -> bool
        ensures { result ≡ not_after_last start false (registrations_at self.entry.slots self.entry.meters.now self.entry.slot) }
    {
        let mut answer = false;
        for k in 0..8 {
            let registration = self.registration(k);
            if registration.status == 0 {
                return answer;
            }
            answer = start <= registration.start();
        }
        answer
    }
}

// Puts the MPAN and registration k. Entry by entry, since the ledger has it as a run of single stores.
#[tactic(auto, unfolding(ledger::specs::Sizes::meters_length, ledger::specs::Store::put_registration))]
pub fn put_registration(
    slots: u64,
    meters: &mut [u64],
    mpan: u64,
    slot: u64,
    k: u64,
    registration: Registration,
)
    requires { (slots ≤ 1024) × (slot < slots) × (meters_length slots ≤ length meters.old) × (k < 8) }
    ensures { meters.new ≡ put_registration slots mpan slot k (registration_meant registration) meters.old }
{
    let at = registration_index(slots, slot, k);
    put_entry(meters, slot, mpan);
    put_entry(meters, at, registration.moment);
    put_entry(meters, at + 1, registration.category);
    put_entry(meters, at + 2, registration.sender);
    put_entry(meters, at + 3, registration.status);
    put_entry(meters, at + 4, registration.limit);
}
