// The checks of a net read beyond those of every read.
ghost use Rattle.std.specs.Prelude.{◌≡◌, not, cond, ◌<◌, length};
ghost use Rattle.ledger.specs.Store.{categories_of, dates_of, row_length, is_run_at};
ghost use Rattle.store.specs.Outcome.{failed_number};
ghost use Rattle.net.specs.Sides.{paired_with};

use reads::checks::check_run;
use settings::category::ACTIVE_IMPORT;
use settings::opened::Settings;
use store::lent::Cells;
use store::refusal::Check;

// 26: no Smart import category, or no export category on the other side.
#[tactic(auto, unfolding(crate::specs::Sides::paired_with))]
fn check_partner(settings: Settings, category: u64, exports: &[u64]) -> Result<(), Check>
    requires { category < categories_of settings.bytes.now }
    ensures { failed_number result ≡ cond (not (paired_with settings.entry.bytes.now category (length exports.now))) 26 0 }
{
    let imports = settings.is_smart(category) && settings.quantity(category) == ACTIVE_IMPORT;
    if imports && !exports.is_empty() {
        return Ok(());
    }
    Err(Check::NoPartner)
}

// 26, then 14.
pub fn check_pair(cells: Cells, date: u64, category: u64, exports: &[u64]) -> Result<(), Check>
    requires { (date < dates_of cells.settings.bytes.now) × (category < categories_of cells.settings.bytes.now) }
    ensures { failed_number result ≡ cond (not (paired_with cells.entry.settings.bytes.now category (length exports.now))) 26 (cond (not (is_run_at (row_length cells.entry.settings.bytes.now) cells.entry.entries.now date)) 14 0) }
{
    check_partner(cells.settings, category, exports)?;
    check_run(cells, date)
}
