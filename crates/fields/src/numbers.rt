// An answer as numbers: the number to return, and the fields for the list.
ghost use Rattle.std.specs.Prelude.{◌≡◌, ◌≤◌, length, take};
ghost use Rattle.ledger.specs.Ledger.{Answer, accepted, moved, totals_are, cell_is, coverage_is};
ghost use Rattle.ledger.specs.Calls.{overwritten};
ghost use Rattle.entries.specs.Cell.{cell_meant};
ghost use Rattle.store.specs.Outcome.{answered, refusal_answer, totals_meant, coverage_meant};
ghost use Rattle.fields.specs.Fields.{FieldsFit, AsNumbers, net_alone, band_alone};

use entries::cell::{Cell, letter};
use store::outcome::{Band, Coverage, Net, Totals};
use store::refusal::Refusal;

// The fields stand at the front of the array.
#[derive(Clone, Copy, Debug, PartialEq, Eq)]
pub struct Numbers {
    pub number: u64,
    pub fields: [i64; 11],
    pub count: usize,
}

// What an accepted call gives, as the ledger's answer and as numbers. Lists that a call wrote are no fields.
pub trait Fields {
    ghost answer: { Self → Answer };

    fn numbers(self) -> Numbers
        requires { FieldsFit (answer self) }
        ensures { AsNumbers (answer self) result };
}

impl Fields for () {
    ghost answer = { λ _. accepted };

    fn numbers(self) -> Numbers {
        Numbers {
            number: 0,
            fields: [0, 0, 0, 0, 0, 0, 0, 0, 0, 0, 0],
            count: 0,
        }
    }
}

// How many cells moved.
impl Fields for u64 {
    ghost answer = { moved };

    fn numbers(self) -> Numbers {
        let first = self as i64;
        Numbers {
            number: 0,
            fields: [first, 0, 0, 0, 0, 0, 0, 0, 0, 0, 0],
            count: 1,
        }
    }
}

impl Fields for Totals {
    ghost answer = { λ t. totals_are (totals_meant t) };

    fn numbers(self) -> Numbers {
        let tot = self.tot as i64;
        let off = self.off as i64;
        let peak = self.peak as i64;
        let tot7 = self.tot7 as i64;
        let off7 = self.off7 as i64;
        let peak7 = self.peak7 as i64;
        let days7 = self.days7 as i64;
        let ann = self.ann as i64;
        let days = self.days as i64;
        let fresh = self.fresh as i64;
        let blanks = self.blanks as i64;
        Numbers {
            number: 0,
            fields: [
                tot, off, peak, tot7, off7, peak7, days7, ann, days, fresh, blanks,
            ],
            count: 11,
        }
    }
}

impl Fields for Cell {
    ghost answer = { λ a. cell_is (cell_meant a) };

    fn numbers(self) -> Numbers {
        let flag = self.flag;
        let shown = letter(flag) as i64;
        let value = self.value as i64;
        let count = self.count as i64;
        let origin = self.origin as i64;
        let remainder = self.remainder;
        Numbers {
            number: 0,
            fields: [shown, value, count, origin, remainder, 0, 0, 0, 0, 0, 0],
            count: 5,
        }
    }
}

impl Fields for Net {
    ghost answer = { net_alone };

    fn numbers(self) -> Numbers {
        let tot = self.tot;
        let tot7 = self.tot7;
        Numbers {
            number: 0,
            fields: [tot, tot7, 0, 0, 0, 0, 0, 0, 0, 0, 0],
            count: 2,
        }
    }
}

impl Fields for Band {
    ghost answer = { band_alone };

    fn numbers(self) -> Numbers {
        let written = self.written as i64;
        let found = self.found as i64;
        Numbers {
            number: 0,
            fields: [written, found, 0, 0, 0, 0, 0, 0, 0, 0, 0],
            count: 2,
        }
    }
}

impl Fields for Coverage {
    ghost answer = { λ c. coverage_is (coverage_meant c) };

    fn numbers(self) -> Numbers {
        let fresh7 = self.fresh7 as i64;
        let blanks7 = self.blanks7 as i64;
        let fresh365 = self.fresh365 as i64;
        let blanks365 = self.blanks365 as i64;
        let oldest = self.oldest as i64;
        Numbers {
            number: 0,
            fields: [
                fresh7, blanks7, fresh365, blanks365, oldest, 0, 0, 0, 0, 0, 0,
            ],
            count: 5,
        }
    }
}

impl Fields for Refusal {
    ghost answer = { refusal_answer };

    fn numbers(self) -> Numbers {
        let first = self.place as i64;
        Numbers {
            number: self.check.number(),
            fields: [first, 0, 0, 0, 0, 0, 0, 0, 0, 0, 0],
            count: 1,
        }
    }
}

pub fn numbers_of<T: Fields>(outcome: Result<T, Refusal>) -> Numbers
    requires { FieldsFit (answered T.answer outcome) }
    ensures { AsNumbers (answered T.answer outcome) result }
{
    match outcome {
        Ok(given) => given.numbers(),
        Err(refusal) => refusal.numbers(),
    }
}

// The fields go to the front of the list; what stands past them is left.
pub fn put_fields(list: &mut [i64], numbers: Numbers) -> u64
    requires { (numbers.count ≤ 11) × (length numbers.fields ≡ 11) × (11 ≤ length list.old) }
    ensures value { result ≡ numbers.number }
    ensures list_after { list.new ≡ overwritten (take numbers.count numbers.fields) list.old }
{
    let count = numbers.count;
    list[..count].copy_from_slice(&numbers.fields[..count]);
    numbers.number
}
