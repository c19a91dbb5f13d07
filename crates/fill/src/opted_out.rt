// The category that an opted-out meter's group, quantity and connection name.
ghost use Rattle.std.specs.Prelude.{◌≡◌};
ghost use Rattle.ledger.specs.Fill.{of_opted_out, shape_category};
ghost use Rattle.ledger.specs.Store.{categories_of, category_of};

use settings::opened::Settings;

// Its number, or how many categories there are where none is such: that, and no `None`, since the ledger's `shape_category` says so and the
// fill's own check refuses it.
#[tactic(auto, using(ledger::proofs::Chosen::first_here, ledger::proofs::Chosen::first_later, ledger::proofs::Chosen::first_none), unfolding(ledger::specs::Fill::shape_category))]
pub fn opted_out_category(settings: Settings, group: u64, quantity: u64, connection: u64) -> u64
    ensures { result ≡ shape_category (category_of settings.entry.bytes.now) (categories_of settings.entry.bytes.now) (of_opted_out group quantity connection) }
{
    let categories = settings.category_count();
    for category in 0..categories {
        if settings.is_opted_out_shape(category, group, quantity, connection) {
            return category;
        }
    }
    categories
}
