// One line for each case. A case outside what a function requires is shown as such: the program has to test it to be proved.
use metering::{average, calendar, mpan, range};
use std::io;

fn answer(is_true: bool) -> &'static str {
    if is_true { "yes" } else { "no" }
}

fn mpan_case(rt: &HostRuntime, value: u64) -> io::Result<()> {
    println!(rt; "mpan {value} {}", answer(mpan::mpan_valid(value)))
}

fn average_case(rt: &HostRuntime, sum: u64, count: u64) -> io::Result<()> {
    if count == 0 {
        return println!(rt; "average {sum} {count} outside");
    }
    let average = average::average_up(sum, count);
    println!(rt;
        "average {sum} {count} {} {}",
        average.value, average.remainder
    )
}

// 50539024859478223 is the largest sum whose product with 365 fits.
fn annual_case(rt: &HostRuntime, sum: u64, days: u64) -> io::Result<()> {
    if days == 0 || 50539024859478223 < sum {
        return println!(rt; "annual {sum} {days} outside");
    }
    println!(rt; "annual {sum} {days} {}", average::annual_figure(sum, days))
}

fn duration_case(rt: &HostRuntime, duration: u64) -> io::Result<()> {
    let known = answer(calendar::duration_known(duration));
    if duration == 0 {
        return println!(rt; "duration {duration} {known} outside");
    }
    println!(rt;
        "duration {duration} {known} {}",
        calendar::periods_per_day(duration)
    )
}

// 0 says that the minute closes no period.
fn end_case(rt: &HostRuntime, duration: u64, end: u64) -> io::Result<()> {
    if duration == 0 {
        return println!(rt; "end {duration} {end} outside");
    }
    println!(rt;
        "end {duration} {end} {}",
        calendar::period_ending(duration, end).unwrap_or(0)
    )
}

// Whether two minutes may be a window, and the periods between them.
#[tactic(auto, unfolding(metering::specs::Calendar::duration_known))]
fn window_case(rt: &HostRuntime, duration: u64, start: u64, end: u64) -> io::Result<()> {
    if !calendar::duration_known(duration) {
        return println!(rt; "window {duration} {start} {end} outside");
    }
    let valid = answer(calendar::window_valid(duration, start, end));
    let periods = calendar::periods_within(duration, start, end);
    println!(rt;
        "window {duration} {start} {end} {valid} {} {}",
        periods.first, periods.count
    )
}

fn between_case(rt: &HostRuntime, low: u64, high: u64, x: u64) -> io::Result<()> {
    println!(rt;
        "between {low} {high} {x} {}",
        answer(range::between(low, high, x))
    )
}

fn range_case(rt: &HostRuntime, x: u64) -> io::Result<()> {
    let meters = answer(range::meters_in_range(x));
    let categories = answer(range::categories_in_range(x));
    let dates = answer(range::dates_in_range(x));
    let day_type = answer(range::day_type_valid(x));
    println!(rt; "range {x} {meters} {categories} {dates} {day_type}")
}

fn category_case(rt: &HostRuntime, bytes: u64, windows: u64) -> io::Result<()> {
    let valid = answer(range::category_valid(&bytes.to_be_bytes(), windows));
    println!(rt; "category {bytes:016x} {windows} {valid}")
}

// The letter of a kind is the protocol of the cases.
pub fn case(rt: &HostRuntime, kind: u8, a: u64, b: u64, c: u64) -> io::Result<()> {
    match kind {
        b'm' => mpan_case(rt, a),
        b'a' => average_case(rt, a, b),
        b'y' => annual_case(rt, a, b),
        b'd' => duration_case(rt, a),
        b'e' => end_case(rt, a, b),
        b'w' => window_case(rt, a, b, c),
        b'b' => between_case(rt, a, b, c),
        b'r' => range_case(rt, a),
        b'c' => category_case(rt, a, b),
        _ => println!(rt; "unknown"),
    }
}
