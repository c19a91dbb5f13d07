// A kept category record's fields, and the day types.
ghost use Rattle.std.specs.Prelude.{◌≡◌, ℕ, ◌+◌, ◌*◌, ◌<◌, drop, length, get_or};
ghost use Rattle.settings.specs.Access.{Byte};
ghost use Rattle.ledger.specs.Sizes.{header_length};
ghost use Rattle.ledger.specs.Method.{is_smart, same_family};
ghost use Rattle.ledger.specs.Net.{with_quantity, on_side};
ghost use Rattle.ledger.specs.Fill.{is_opted_out_shape};
ghost use Rattle.ledger.specs.Store.{categories_of, dates_of, category_of, day_type_of};

use crate::access::byte_at;
use crate::opened::Settings;
use crate::sizes::HEADER_LENGTH;

// Two of a record's quantities. Numbers and no enum: a record may hold any byte, and a side may be of any.
pub const ACTIVE_IMPORT: u64 = 1;

pub const ACTIVE_EXPORT: u64 = 2;

impl<'a> Settings<'a> {
    #[tactic(auto, using(crate::proofs::Laws::ready_bounds))]
    fn category_byte(self, category: u64, k: u64) -> u64
        requires { (category < categories_of self.bytes.now) × (k < 8) }
        ensures { Byte (drop header_length self.entry.bytes.now) (8 * category + k) result }
    {
        byte_at(self.bytes, HEADER_LENGTH + (8 * category + k))
    }

    // By the segment's number, as `metering::range` tests it.
    #[tactic(auto, unfolding(ledger::specs::Method::is_smart, ledger::specs::Store::category_of, ledger::specs::Method::category_at))]
    pub fn is_smart(self, category: u64) -> bool
        requires { category < categories_of self.bytes.now }
        ensures { result ≡ is_smart (category_of self.entry.bytes.now category) }
    {
        self.category_byte(category, 0) == 1
    }

    #[tactic(auto, unfolding(ledger::specs::Store::category_of, ledger::specs::Method::category_at))]
    pub fn quantity(self, category: u64) -> u64
        requires { category < categories_of self.bytes.now }
        ensures { result ≡ (category_of self.entry.bytes.now category).quantity }
    {
        self.category_byte(category, 3)
    }

    #[tactic(auto, unfolding(ledger::specs::Store::category_of, ledger::specs::Method::category_at))]
    pub fn window(self, category: u64) -> u64
        requires { category < categories_of self.bytes.now }
        ensures { result ≡ (category_of self.entry.bytes.now category).window }
    {
        self.category_byte(category, 5)
    }

    #[tactic(auto, unfolding(ledger::specs::Store::category_of, ledger::specs::Method::category_at))]
    pub fn de_minimis(self, category: u64) -> u64
        requires { category < categories_of self.bytes.now }
        ensures { result ≡ (category_of self.entry.bytes.now category).de_minimis }
    {
        256 * self.category_byte(category, 6) + self.category_byte(category, 7)
    }

    // Whether b is of the family that a has, or would have with this quantity.
    #[tactic(auto, unfolding(ledger::specs::Method::same_family, ledger::specs::Method::is_smart, ledger::specs::Store::category_of, ledger::specs::Method::category_at))]
    fn in_family(self, quantity: u64, a: u64, b: u64) -> bool
        requires { (a < categories_of self.bytes.now) × (b < categories_of self.bytes.now) }
        ensures { result ≡ same_family (with_quantity quantity (category_of self.entry.bytes.now a)) (category_of self.entry.bytes.now b) }
    {
        self.is_smart(a)
            && self.is_smart(b)
            && self.category_byte(a, 2) == self.category_byte(b, 2)
            && quantity == self.category_byte(b, 3)
            && self.category_byte(a, 4) == self.category_byte(b, 4)
    }

    // Smart categories alike in domestic, quantity and connection.
    pub fn same_family(self, a: u64, b: u64) -> bool
        requires { (a < categories_of self.bytes.now) × (b < categories_of self.bytes.now) }
        ensures { result ≡ same_family (category_of self.entry.bytes.now a) (category_of self.entry.bytes.now b) }
    {
        self.in_family(self.quantity(a), a, b)
    }

    // Whether b stands on a net's side of this quantity: in that family, and in a's group unless all groups are pooled.
    #[tactic(auto, unfolding(ledger::specs::Net::on_side, ledger::specs::Store::category_of, ledger::specs::Method::category_at))]
    pub fn on_side(self, all_groups: bool, quantity: u64, a: u64, b: u64) -> bool
        requires { (a < categories_of self.bytes.now) × (b < categories_of self.bytes.now) }
        ensures { result ≡ on_side all_groups quantity (category_of self.entry.bytes.now a) (category_of self.entry.bytes.now b) }
    {
        self.in_family(quantity, a, b)
            && (all_groups || self.category_byte(a, 1) == self.category_byte(b, 1))
    }

    // Whether the category is the Smart domestic one that an opted-out meter with these takes.
    #[tactic(auto, unfolding(ledger::specs::Fill::is_opted_out_shape, ledger::specs::Store::category_of, ledger::specs::Method::category_at))]
    pub fn is_opted_out_shape(
        self,
        category: u64,
        group: u64,
        quantity: u64,
        connection: u64,
    ) -> bool
        requires { category < categories_of self.bytes.now }
        ensures { result ≡ is_opted_out_shape group quantity connection (category_of self.entry.bytes.now category) }
    {
        self.is_smart(category)
            && self.category_byte(category, 2) == 1
            && self.category_byte(category, 1) == group
            && self.category_byte(category, 3) == quantity
            && self.category_byte(category, 4) == connection
    }

    #[tactic(auto, using(crate::proofs::Laws::ready_bounds), unfolding(ledger::specs::Store::day_type_of))]
    pub fn day_type(self, date: u64) -> u64
        requires { date < dates_of self.bytes.now }
        ensures { result ≡ day_type_of self.entry.bytes.now date }
    {
        byte_at(self.bytes, HEADER_LENGTH + 8 * self.category_count() + date)
    }

    // All of them, a byte for each date: a walk over the dates then reads the header once.
    #[tactic(auto, using(crate::proofs::Laws::ready_bounds, ledger::proofs::Lists::part_length, ledger::proofs::Lists::part_at), unfolding(ledger::specs::Store::day_type_of))]
    pub fn day_types(self) -> &'a [u8]
        ensures long { length result.now ≡ dates_of self.entry.bytes.now }
        ensures of_each { (date : ℕ) → date < dates_of self.entry.bytes.now → get_or result.now date 0 ≡ day_type_of self.entry.bytes.now date }
    {
        let start = (HEADER_LENGTH + 8 * self.category_count()) as usize;
        let end = start + self.date_count() as usize;
        &self.bytes[start..end]
    }
}
