// Ranges of what an opening takes, and its category records.
ghost use Rattle.std.specs.Prelude.{◌≡◌, ◌<◌, length, get_or};
ghost use Rattle.metering.specs.Range.{between, meters_in_range, categories_in_range, dates_in_range, day_type_valid, fields_between, smart_valid, advanced_valid, category_valid};

#[tactic(auto, unfolding(crate::specs::Range::between))]
pub fn between(low: u64, high: u64, x: u64) -> bool
    ensures { result ≡ between low high x }
{
    (low..=high).contains(&x)
}

// Four functions of a line each: each bound has a definition and callers of its own name.
#[tactic(auto, unfolding(crate::specs::Range::meters_in_range))]
pub fn meters_in_range(meters: u64) -> bool
    ensures { result ≡ meters_in_range meters }
{
    between(1, 1024, meters)
}

#[tactic(auto, unfolding(crate::specs::Range::categories_in_range))]
pub fn categories_in_range(categories: u64) -> bool
    ensures { result ≡ categories_in_range categories }
{
    between(1, 64, categories)
}

#[tactic(auto, unfolding(crate::specs::Range::dates_in_range))]
pub fn dates_in_range(dates: u64) -> bool
    ensures { result ≡ dates_in_range dates }
{
    between(1, 800, dates)
}

#[tactic(auto, unfolding(crate::specs::Range::day_type_valid))]
pub fn day_type_valid(day_type: u64) -> bool
    ensures { result ≡ day_type_valid day_type }
{
    between(1, 16, day_type)
}

fn field_between(category: &[u8], at: usize, low: u64, high: u64) -> bool
    requires { at < length category.now }
    ensures { result ≡ between low high (get_or category.now at 0) }
{
    between(low, high, u64::from(category[at]))
}

// What follows the segment byte. Group and domestic start at low, and each of group, domestic and window ends at the bound of its
// name: the segments differ in these alone.
#[tactic(auto, unfolding(crate::specs::Range::fields_between))]
fn fields_between(category: &[u8], low: u64, group: u64, domestic: u64, window: u64) -> bool
    requires { length category.now ≡ 8 }
    ensures { result ≡ fields_between low group domestic window category.now }
{
    field_between(category, 1, low, group)
        && field_between(category, 2, low, domestic)
        && field_between(category, 3, 1, 2)
        && field_between(category, 4, 1, 4)
        && field_between(category, 5, 0, window)
}

// Segments stay numbers: a record's bytes are compared where they are lent, and an enum would be made here alone to be matched here.
#[tactic(auto, unfolding(crate::specs::Range::smart_valid, crate::specs::Range::fields_between))]
fn smart_valid(category: &[u8], windows: u64) -> bool
    requires { length category.now ≡ 8 }
    ensures { result ≡ smart_valid windows category.now }
{
    category[0] == 1 && fields_between(category, 1, 14, 2, windows)
}

#[tactic(auto, unfolding(crate::specs::Range::advanced_valid, crate::specs::Range::fields_between))]
fn advanced_valid(category: &[u8]) -> bool
    requires { length category.now ≡ 8 }
    ensures { result ≡ advanced_valid category.now }
{
    category[0] == 2 && fields_between(category, 0, 0, 0, 0)
}

// The eight bytes of a category record, of an opening with so many windows.
#[tactic(auto, unfolding(crate::specs::Range::category_valid))]
pub fn category_valid(category: &[u8], windows: u64) -> bool
    requires { length category.now ≡ 8 }
    ensures { result ≡ category_valid windows category.now }
{
    smart_valid(category, windows) || advanced_valid(category)
}
