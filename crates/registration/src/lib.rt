// Registration: the checks in pieces, then one more registration in the meter's slot.
#![tactic(auto)]

ghost use Rattle.std.specs.Prelude.{◌≡◌, false, cond, ◌&&◌, ◌≤◌, leb, length};
ghost use Rattle.store.specs.Outcome.{failed_number, answer_of};
ghost use Rattle.registration.specs.Registration.{registration_call};
ghost use Rattle.ledger.specs.Sizes.{readings_length};
ghost use Rattle.ledger.specs.Checks.{fields_number, known_number, meter_number, any_below};
ghost use Rattle.ledger.specs.Store.{meters_of, categories_of, dates_of, slot_of, known_at, registrations_at, is_held_at};
ghost use Rattle.ledger.specs.Ledger.{answer, accepted, left};
ghost use Rattle.ledger.specs.Calls.{meters_unready, slot_for, registrations_for, held_from_at, registration_verdict, registered_meters};

use metering::range::between;
use settings::opened::Settings;
use store::meter_call::check_call;
use store::meters::{Registration, Slot, has_mpan, moment_of, put_registration, slot_of, start_of};
use store::readings::held_from;
use store::refusal::{Check, Refusal};

// 16: a field out of range.
#[tactic(auto, unfolding(ledger::specs::Checks::fields_number))]
fn check_fields(
    settings: Settings,
    start: u64,
    minute: u64,
    category: u64,
    status: u64,
) -> Result<(), Check>
    ensures { failed_number result ≡ fields_number (dates_of settings.entry.bytes.now) (categories_of settings.entry.bytes.now) start minute category status }
{
    if 1439 < minute
        || settings.category_count() <= category
        || !between(1, 3, status)
        || settings.date_count() <= start
    {
        return Err(Check::Fields);
    }
    Ok(())
}

// 10, 11, 12, of a known meter.
#[tactic(auto, unfolding(ledger::specs::Checks::known_number))]
fn check_known(
    slot: Slot<'_>,
    dates: u64,
    periods: u64,
    readings: &[u64],
    start: u64,
) -> Result<(), Check>
    requires { (dates ≤ 800) × (periods ≤ 96) × (readings_length slot.slots dates periods ≤ length readings.now) }
    ensures { failed_number result ≡ known_number start (any_below dates (λ d. leb start d && is_held_at slot.entry.slots periods readings.now d slot.entry.slot)) (registrations_at slot.entry.slots slot.entry.meters.now slot.entry.slot) }
{
    if slot.start_not_after_last(start) {
        return Err(Check::StartNotLater);
    }
    if held_from(dates, slot.slots, periods, readings, start, slot.slot) {
        return Err(Check::SetHeld);
    }
    if 8 <= slot.used() {
        return Err(Check::NinthRegistration);
    }
    Ok(())
}

// 8, of an MPAN that no slot is left for, or those of a known meter.
#[tactic(auto, using(crate::proofs::Laws::lent_known, crate::proofs::Laws::numbers), unfolding(ledger::specs::Sizes::meters_length))]
fn check_meter(
    settings: Settings,
    meters: &[u64],
    readings: &[u64],
    mpan: u64,
    slot: u64,
    start: u64,
) -> Result<(), Check>
    requires { (meters_unready settings.bytes.now meters.now readings.now ≡ false) × (slot ≡ slot_for settings.bytes.now meters.now readings.now mpan) }
    ensures { failed_number result ≡ meter_number (leb (meters_of settings.entry.bytes.now) slot) start (held_from_at settings.entry.bytes.now meters.now readings.now start slot) (registrations_for settings.entry.bytes.now meters.now readings.now mpan) }
{
    let slots = settings.meter_count();
    if slots <= slot {
        return Err(Check::NoSlot);
    }
    if !has_mpan(meters, slot, mpan) {
        return Ok(());
    }
    check_known(
        Slot {
            slots,
            meters,
            slot,
        },
        settings.date_count(),
        settings.period_count(),
        readings,
        start,
    )
}

// How many registrations an MPAN has: a free slot has none, whatever its entries hold.
#[tactic(auto, using(crate::proofs::Laws::used_known, crate::proofs::Laws::used_new), unfolding(ledger::specs::Sizes::meters_length))]
fn used_by(slot: Slot<'_>, mpan: u64) -> u64
    requires { slot.slot ≡ slot_of slot.slots mpan slot.meters.now }
    ensures { result ≡ cond (known_at slot.entry.slots mpan slot.entry.meters.now) (length (registrations_at slot.entry.slots slot.entry.meters.now slot.entry.slot)) 0 }
{
    if has_mpan(slot.meters, slot.slot, mpan) {
        slot.used()
    } else {
        0
    }
}

// Ten arguments: the engine's public call, which may not change.
#[tactic(auto, using(store::proofs::Refusals::refused_at, store::proofs::Refusals::given_at, crate::proofs::Laws::lent_known, crate::proofs::Laws::pieces), unfolding(ledger::specs::Sizes::meters_length))]
pub fn register(
    settings: &[u8],
    meters: &mut [u64],
    readings: &[u64],
    mpan: u64,
    date: u64,
    minute: u64,
    category: u64,
    sender: u16,
    status: u64,
    limit: u32,
) -> Result<(), Refusal>
    ensures answered { answer_of result ≡ answer (registration_verdict settings.now meters.old readings.now (registration_call mpan date minute category sender status limit)) accepted }
    ensures kept { meters.new ≡ left (registration_verdict settings.now meters.old readings.now (registration_call mpan date minute category sender status limit)) meters.old (registered_meters settings.now meters.old readings.now (registration_call mpan date minute category sender status limit)) }
{
    let settings = check_call(settings, meters, readings, mpan, date)?;
    let start = start_of(date, minute);
    check_fields(settings, start, minute, category, status)?;
    let slots = settings.meter_count();
    let slot = slot_of(slots, mpan, meters);
    check_meter(settings, meters, readings, mpan, slot, start)?;
    let used = used_by(
        Slot {
            slots,
            meters,
            slot,
        },
        mpan,
    );
    let registration = Registration {
        moment: moment_of(date, minute),
        category,
        sender: u64::from(sender),
        status,
        limit: u64::from(limit),
    };
    put_registration(slots, meters, mpan, slot, used, registration);
    Ok(())
}
