// Whether each other part is as long as the settings ask.
ghost use Rattle.std.specs.Prelude.{◌≡◌};
ghost use Rattle.ledger.specs.Store.{meters_ready, readings_ready, cells_ready, days_ready};

use crate::opened::Settings;
use crate::sizes::{cells_length, days_length, meters_length, readings_length};

impl<'a> Settings<'a> {
    #[tactic(auto, using(crate::proofs::Laws::ready_bounds), unfolding(ledger::specs::Store::meters_ready))]
    pub fn meters_ready(self, meters: &[u64]) -> bool
        ensures { result ≡ meters_ready self.entry.bytes.now meters.now }
    {
        meters_length(self.meter_count()) <= meters.len() as u64
    }

    #[tactic(auto, using(crate::proofs::Laws::ready_bounds), unfolding(ledger::specs::Store::readings_ready))]
    pub fn readings_ready(self, readings: &[u64]) -> bool
        ensures { result ≡ readings_ready self.entry.bytes.now readings.now }
    {
        let least = readings_length(self.meter_count(), self.date_count(), self.period_count());
        least <= readings.len() as u64
    }

    #[tactic(auto, using(crate::proofs::Laws::ready_bounds), unfolding(ledger::specs::Store::cells_ready))]
    pub fn cells_ready(self, cells: &[u64]) -> bool
        ensures { result ≡ cells_ready self.entry.bytes.now cells.now }
    {
        let least = cells_length(
            self.category_count(),
            self.date_count(),
            self.period_count(),
        );
        least <= cells.len() as u64
    }

    #[tactic(auto, using(crate::proofs::Laws::ready_bounds), unfolding(ledger::specs::Store::days_ready))]
    pub fn days_ready(self, days: &[u64]) -> bool
        ensures { result ≡ days_ready self.entry.bytes.now days.now }
    {
        days_length(self.category_count(), self.date_count()) <= days.len() as u64
    }
}
