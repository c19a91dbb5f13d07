// The lines by value, on the scope document's worked example and the README's cell.
use crate::lines::{Shown, answer_line};
use entries::cell::{Cell, Flag};
use store::outcome::Totals;
use store::refusal::{Check, Refusal};

#[test]
fn accepted_lines(rt: HostRuntime) {
    let totals = Totals {
        tot: 750,
        off: 500,
        peak: 250,
        tot7: 1500,
        off7: 1000,
        peak7: 500,
        days7: 2,
        ann: 273750,
        days: 2,
        fresh: 0,
        blanks: 46,
    };
    let cell = Cell {
        flag: Flag::E,
        value: 500,
        count: 1,
        origin: 0,
        remainder: 0,
    };
    let sums = b"17 ok 0.750 0.500 0.250 1.500 1.000 0.500 2 273.750 2 0 46\n";
    assert_eq!(rt; ().line(0x10).as_slice(), b"10 ok\n".as_slice());
    assert_eq!(rt; 2u64.line(0x16).as_slice(), b"16 ok 2\n".as_slice());
    assert_eq!(rt; totals.line(0x17).as_slice(), sums.as_slice());
    assert_eq!(rt;
        cell.line(0x18).as_slice(),
        b"18 ok E 0.500 1 0 0\n".as_slice()
    );
    assert_eq!(rt;
        answer_line(0x16, Ok(2u64)).as_slice(),
        b"16 ok 2\n".as_slice()
    );
}

#[test]
fn refused_lines(rt: HostRuntime) {
    let refusal = Refusal {
        check: Check::Range,
        place: 0,
    };
    let outcome: Result<Cell, Refusal> = Err(refusal);
    assert_eq!(rt; refusal.line(0x18).as_slice(), b"18 no 15 0\n".as_slice());
    assert_eq!(rt;
        answer_line(0x18, outcome).as_slice(),
        b"18 no 15 0\n".as_slice()
    );
}
