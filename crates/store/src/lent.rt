// What a call is lent, handed out where it can be read: opened settings, and parts that are long enough.
ghost use Rattle.std.specs.Prelude.{◌≡◌, true, not};
ghost use Rattle.ledger.specs.Store.{settings_ready, cells_ready, days_ready};
ghost use Rattle.ledger.specs.Calls.{meters_unready, run_unready, cells_unready, days_unready};
ghost use Rattle.store.specs.Lent.{LentUnless};

use crate::refusal::Check;
use settings::opened::Settings;

// Cells to read, as long as the settings ask.
#[derive(Clone, Copy)]
pub struct Cells<'a> {
    pub settings: Settings<'a>,
    pub entries: &'a [u64],
    ghost long: { cells_ready settings.bytes.now entries.now ≡ true },
}

// Days to read, likewise.
#[derive(Clone, Copy)]
pub struct Days<'a> {
    pub settings: Settings<'a>,
    pub entries: &'a [u64],
    ghost long: { days_ready settings.bytes.now entries.now ≡ true },
}

fn opened<'a>(settings: &'a [u8]) -> Result<Settings<'a>, Check>
    ensures { LentUnless (not (settings_ready settings.now)) (λ s. s.bytes.now ≡ settings.now) result }
{
    Settings::of(settings).ok_or(Check::Unready)
}

// The settings, with meters and readings that are long enough.
#[tactic(auto, unfolding(ledger::specs::Calls::meters_unready))]
pub fn meters_lent<'a>(
    settings: &'a [u8],
    meters: &[u64],
    readings: &[u64],
) -> Result<Settings<'a>, Check>
    ensures { LentUnless (meters_unready settings.now meters.now readings.now) (λ s. s.bytes.now ≡ settings.now) result }
{
    let settings = opened(settings)?;
    if !settings.meters_ready(meters) || !settings.readings_ready(readings) {
        return Err(Check::Unready);
    }
    Ok(settings)
}

// And with cells and days too.
#[tactic(auto, unfolding(ledger::specs::Calls::meters_unready, ledger::specs::Calls::run_unready))]
pub fn run_lent<'a>(
    settings: &'a [u8],
    meters: &[u64],
    readings: &[u64],
    cells: &[u64],
    days: &[u64],
) -> Result<Settings<'a>, Check>
    ensures { LentUnless (run_unready settings.now meters.now readings.now cells.now days.now) (λ s. s.bytes.now ≡ settings.now) result }
{
    let settings = meters_lent(settings, meters, readings)?;
    if !settings.cells_ready(cells) || !settings.days_ready(days) {
        return Err(Check::Unready);
    }
    Ok(settings)
}

#[tactic(auto, unfolding(ledger::specs::Calls::cells_unready))]
pub fn cells_lent<'a>(settings: &'a [u8], cells: &'a [u64]) -> Result<Cells<'a>, Check>
    ensures { LentUnless (cells_unready settings.now cells.now) (λ c. (c.settings.bytes.now ≡ settings.now) × (c.entries.now ≡ cells.now)) result }
{
    let settings = opened(settings)?;
    if !settings.cells_ready(cells) {
        return Err(Check::Unready);
    }
    Ok(Cells {
        settings,
        entries: cells,
    })
}

#[tactic(auto, unfolding(ledger::specs::Calls::days_unready))]
pub fn days_lent<'a>(settings: &'a [u8], days: &'a [u64]) -> Result<Days<'a>, Check>
    ensures { LentUnless (days_unready settings.now days.now) (λ d. (d.settings.bytes.now ≡ settings.now) × (d.entries.now ≡ days.now)) result }
{
    let settings = opened(settings)?;
    if !settings.days_ready(days) {
        return Err(Check::Unready);
    }
    Ok(Days {
        settings,
        entries: days,
    })
}
