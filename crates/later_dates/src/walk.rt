// The walk over later dates, for a run and for a count.
ghost use Rattle.std.specs.Prelude.{◌≡◌, true, ℕ, ◌-◌, ◌<◌, ◌≤◌, List, length, get_or};
ghost use Rattle.std.specs.Borrow.{GName};
ghost use Rattle.ledger.specs.Store.{cells_ready, dates_of, row_length};
ghost use Rattle.ledger.specs.Calls.{Placing, Published, Ran, carry_on};
ghost use Rattle.later_dates.specs.Walk.{Followed};

use crate::predecessor::is_predecessor;
use settings::opened::Settings;
use store::lent::Cells;

// What has the rows of the dates, and does what is to be done with one that follows.
pub trait Rows {
    ghost place: { Placing };

    ghost published: { Self → Published };

    // as many rows, and as much room, as the settings ask for
    ghost fit: { List ℕ → Self → Type 0 };

    // the parts that are lent
    ghost parts: { Self → GName × GName };

    fn cells(&self) -> &[u64]
        ensures { result.now ≡ (published self.now).cells };

    fn follow(&mut self, settings: Settings, date: u64, inherited: &mut [u64]) -> u64
        requires { (fit settings.bytes.now self.old) × (date < dates_of settings.bytes.now) × (row_length settings.bytes.now ≤ length inherited.old) }
        ensures followed { Followed place settings.entry.bytes.now date inherited.old (published self.old) inherited.new (published self.new) result }
        ensures still_fit { fit settings.entry.bytes.now self.new }
        ensures same_parts { parts self.new ≡ parts self.old };

    ghost enough: { (settings : List ℕ) (s : Self) → fit settings s → cells_ready settings (published s).cells ≡ true };
}

// Starts at `first` with what it takes over, and adds the cells that move to `moved`.
pub fn walk<R: Rows>(
    rows: &mut R,
    settings: Settings,
    day: u64,
    first: u64,
    moved: u64,
    inherited: &mut [u64],
) -> u64
    requires settings_value { R.fit settings.bytes.now rows.old }
    requires first_bound { (first ≤ dates_of settings.bytes.now) × (moved ≤ 6144) × (row_length settings.bytes.now ≤ length inherited.old) }
    ensures value { record { published = R.published rows.new; moved = result } ≡ carry_on R.place settings.entry.bytes.now day (dates_of settings.entry.bytes.now - first) (λ k. get_or inherited.old k 0) first (R.published rows.old) moved }
    ensures same_parts { R.parts rows.new ≡ R.parts rows.old }
{
    let mut total = moved;
    for d in first..settings.date_count() {
        let cells = Cells {
            settings,
            entries: rows.cells(),
        };
        if !is_predecessor(cells, day, d) {
            continue;
        }
        let more = rows.follow(settings, d, inherited);
        if more == 0 {
            return total;
        }
        total += more;
    }
    total
}
