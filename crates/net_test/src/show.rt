// The parts of a line, to standard output. A write that fails stops nothing.
use engine::{Net, Refusal};

pub fn question(rt: &HostRuntime, date: u64, category: u64, all_groups: bool) {
    let _ = print!(rt; "net {date} {category} {}", u8::from(all_groups));
}

pub fn accepted(rt: &HostRuntime, net: Net) {
    let _ = print!(rt; " ok {} {}", net.tot, net.tot7);
}

pub fn numbers(rt: &HostRuntime, list: &[i64; 50]) {
    for number in list {
        let _ = print!(rt; " {number}");
    }
}

pub fn marks(rt: &HostRuntime, list: &[u8; 50]) {
    for mark in list {
        let _ = print!(rt; " {mark}");
    }
}

pub fn refused(rt: &HostRuntime, refusal: Refusal) {
    let _ = print!(rt; " no {refusal}");
}

pub fn kept(rt: &HostRuntime, numbers: &[i64; 50], marks: &[u8; 50]) {
    let kept = numbers.iter().all(|number| *number == -7) && marks.iter().all(|mark| *mark == 9);
    let _ = print!(rt; "{}", if kept { " kept" } else { " changed" });
}

pub fn end_of_line(rt: &HostRuntime) {
    let _ = println!(rt;);
}
