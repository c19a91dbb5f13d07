// The answer lines: each behind what the output holds already, and by value.
ghost use Rattle.std.specs.Prelude.{◌≡◌, ◌+◌, ◌≤◌, length};
ghost use Rattle.ledger.specs.Ledger.{Answer, accepted, moved, totals_are, cell_is};
ghost use Rattle.entries.specs.Cell.{cell_meant};
ghost use Rattle.store.specs.Outcome.{answered, refusal_answer, totals_meant};
ghost use Rattle.output.specs.Text.{Appended};
ghost use Rattle.output.specs.Lines.{command_text, accepted_text, energies_text, totals_text, origin_word, cell_text, answer_line};

use crate::append::{append, append_byte, append_energy, append_number, append_signed};
use crate::line::Line;
use entries::cell::{Cell, letter};
use store::outcome::Totals;
use store::refusal::Refusal;

// The command's byte in hex.
fn append_command(out: &mut [u8], at: usize, code: u8) -> usize
    requires { at + 2 ≤ length out.old }
    ensures { Appended out.old at out.new result (command_text code) }
{
    append(out, at, &[48 + code / 16, 48 + code % 16])
}

fn append_accepted(out: &mut [u8], at: usize, code: u8) -> usize
    requires { at + 5 ≤ length out.old }
    ensures { Appended out.old at out.new result (accepted_text code) }
{
    let next = append_command(out, at, code);
    append(out, next, b" ok")
}

// What a call gives, as the ledger's answer and as its line behind what the output holds.
pub trait AppendLine {
    ghost answer: { Self → Answer };

    fn append_line(self, code: u8, out: &mut [u8], at: usize) -> usize
        requires { at + 300 ≤ length out.old }
        ensures appended { Appended out.old at out.new result (answer_line code (answer self)) }
        ensures upper_bound { result ≤ at + 300 };
}

impl AppendLine for () {
    ghost answer = { λ _. accepted };

    #[tactic(auto, unfolding(crate::specs::Lines::answer_line))]
    fn append_line(self, code: u8, out: &mut [u8], at: usize) -> usize {
        let next = append_accepted(out, at, code);
        append_byte(out, next, b'\n')
    }
}

// How many cells moved.
impl AppendLine for u64 {
    ghost answer = { moved };

    #[tactic(auto, unfolding(crate::specs::Lines::answer_line))]
    fn append_line(self, code: u8, out: &mut [u8], at: usize) -> usize {
        let mut next = append_accepted(out, at, code);
        next = append_number(out, next, self);
        append_byte(out, next, b'\n')
    }
}

// TOT OFF PEAK, of a day or of seven.
fn append_energies(out: &mut [u8], at: usize, tot: u64, off: u64, peak: u64) -> usize
    requires { at + 75 ≤ length out.old }
    ensures appended { Appended out.old at out.new result (energies_text tot off peak) }
    ensures upper_bound { result ≤ at + 75 }
{
    let mut next = append_energy(out, at, tot);
    next = append_energy(out, next, off);
    append_energy(out, next, peak)
}

fn append_figures(out: &mut [u8], at: usize, totals: Totals) -> usize
    requires { at + 259 ≤ length out.old }
    ensures appended { Appended out.old at out.new result (totals_text (totals_meant totals)) }
    ensures upper_bound { result ≤ at + 259 }
{
    let mut next = append_energies(out, at, totals.tot, totals.off, totals.peak);
    next = append_energies(out, next, totals.tot7, totals.off7, totals.peak7);
    next = append_number(out, next, totals.days7);
    next = append_energy(out, next, totals.ann);
    next = append_number(out, next, totals.days);
    next = append_number(out, next, totals.fresh);
    append_number(out, next, totals.blanks)
}

impl AppendLine for Totals {
    ghost answer = { λ t. totals_are (totals_meant t) };

    #[tactic(auto, unfolding(crate::specs::Lines::answer_line))]
    fn append_line(self, code: u8, out: &mut [u8], at: usize) -> usize {
        let mut next = append_accepted(out, at, code);
        next = append_figures(out, next, self);
        append_byte(out, next, b'\n')
    }
}

// A blank and the origin; a cell of no date has none.
fn append_origin(out: &mut [u8], at: usize, origin: u64) -> usize
    requires { at + 21 ≤ length out.old }
    ensures appended { Appended out.old at out.new result (origin_word origin) }
    ensures upper_bound { result ≤ at + 21 }
{
    if origin == 65535 {
        append(out, at, b" -")
    } else {
        append_number(out, at, origin)
    }
}

fn append_fields(out: &mut [u8], at: usize, cell: Cell) -> usize
    requires { at + 91 ≤ length out.old }
    ensures appended { Appended out.old at out.new result (cell_text (cell_meant cell)) }
    ensures upper_bound { result ≤ at + 91 }
{
    let flag = cell.flag;
    let mut next = append(out, at, &[b' ', letter(flag)]);
    next = append_energy(out, next, cell.value);
    next = append_number(out, next, cell.count);
    next = append_origin(out, next, cell.origin);
    append_signed(out, next, cell.remainder)
}

impl AppendLine for Cell {
    ghost answer = { λ a. cell_is (cell_meant a) };

    #[tactic(auto, unfolding(crate::specs::Lines::answer_line))]
    fn append_line(self, code: u8, out: &mut [u8], at: usize) -> usize {
        let mut next = append_accepted(out, at, code);
        next = append_fields(out, next, self);
        append_byte(out, next, b'\n')
    }
}

impl AppendLine for Refusal {
    ghost answer = { refusal_answer };

    #[tactic(auto, unfolding(crate::specs::Lines::answer_line))]
    fn append_line(self, code: u8, out: &mut [u8], at: usize) -> usize {
        let mut next = append_command(out, at, code);
        next = append(out, next, b" no");
        next = append_number(out, next, self.check.number());
        next = append_number(out, next, self.place);
        append_byte(out, next, b'\n')
    }
}

// The line for the answer to a command.
pub fn append_answer_line<T: AppendLine>(
    code: u8,
    outcome: Result<T, Refusal>,
    out: &mut [u8],
    at: usize,
) -> usize
    requires { at + 300 ≤ length out.old }
    ensures appended { Appended out.old at out.new result (answer_line code (answered T.answer outcome)) }
    ensures upper_bound { result ≤ at + 300 }
{
    match outcome {
        Ok(given) => given.append_line(code, out, at),
        Err(refusal) => refusal.append_line(code, out, at),
    }
}

// What a call gives, as the ledger's answer and as its line by value, for a caller that keeps it.
pub trait Shown {
    ghost answer: { Self → Answer };

    fn line(self, code: u8) -> Line
        ensures { result.items ≡ answer_line code (answer self) };
}

// From the text that `append_line` writes, so that each type says its line once.
impl<T: AppendLine> Shown for T {
    ghost answer = { T.answer };

    fn line(self, code: u8) -> Line {
        let mut text = [0u8; 300];
        let length = self.append_line(code, &mut text, 0);
        Line::try_from(&text[..length]).unwrap()
    }
}

// The line for the answer to a command, by value.
pub fn answer_line<T: Shown>(code: u8, outcome: Result<T, Refusal>) -> Line
    ensures { result.items ≡ answer_line code (answered T.answer outcome) }
{
    match outcome {
        Ok(given) => given.line(code),
        Err(refusal) => refusal.line(code),
    }
}
