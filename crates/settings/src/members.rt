// Categories that belong together, listed by their numbers, upward: one side of a net, or a family.
ghost use Rattle.std.specs.Prelude.{◌≡◌, ◌<◌, ◌≤◌};
ghost use Rattle.arrayvec.specs.ArrayVec.{array_vec_len};
ghost use Rattle.ledger.specs.Store.{categories_of};
ghost use Rattle.ledger.specs.Calls.{side_for, family_for};

use crate::opened::Settings;
use arrayvec::ArrayVec;

impl<'a> Settings<'a> {
    // The categories on one side of a net.
    #[tactic(auto, using(crate::proofs::Laws::ready_bounds, crate::proofs::Laws::choosing), unfolding(ledger::specs::Calls::side_for, ledger::specs::Net::side_of))]
    pub fn side_members(self, all_groups: bool, quantity: u64, category: u64) -> ArrayVec<u64, 64>
        requires { category < categories_of self.bytes.now }
        ensures members { result.items ≡ side_for self.entry.bytes.now all_groups quantity category }
        ensures few { array_vec_len result ≤ 64 }
    {
        let categories = self.category_count();
        let mut members = ArrayVec::new();
        for b in 0..categories {
            if self.on_side(all_groups, quantity, category, b) {
                members.push(b);
            }
        }
        members
    }

    // The category's family: the side of its own quantity, in all groups. There is none for one that is not Smart.
    #[tactic(auto, using(crate::proofs::Laws::own_side))]
    pub fn family_members(self, category: u64) -> ArrayVec<u64, 64>
        requires { category < categories_of self.bytes.now }
        ensures members { result.items ≡ family_for self.entry.bytes.now category }
        ensures few { array_vec_len result ≤ 64 }
    {
        self.side_members(true, self.quantity(category), category)
    }
}
