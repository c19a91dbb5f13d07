// Runs the lower layer on the cases of standard input. For each it writes a line: the kind of case, its operands and the answers.
#![tactic(auto)]

mod case;
mod show;

use std::io::Read;

// Reads one case and shows it. The answer is false where the input ends.
fn run_case(rt: &HostRuntime) -> bool {
    let mut line = [0u8; 53];
    if rt.stdin().read_exact(&mut line).is_err() {
        return false;
    }
    let kind = line[0];
    let first = case::operand(&line, 0);
    let second = case::operand(&line, 1);
    let third = case::operand(&line, 2);
    // A write that fails stops nothing.
    let _ = show::case(rt, kind, first, second, third);
    true
}

// A proved loop has to end, and nothing says that the input does: no input has so many cases.
fn main(rt: HostRuntime) {
    for _ in 0..u64::MAX {
        if !run_case(&rt) {
            return;
        }
    }
}
