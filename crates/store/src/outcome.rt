// What an accepted call gives beyond acceptance, each by value.

#[derive(Clone, Copy, Debug, PartialEq, Eq)]
pub struct Totals {
    pub tot: u64,
    pub off: u64,
    pub peak: u64,
    pub tot7: u64,
    pub off7: u64,
    pub peak7: u64,
    pub days7: u64,
    pub ann: u64,
    pub days: u64,
    pub fresh: u64,
    pub blanks: u64,
}

// Net TOT and net TOT7; the periods' nets and marks stand in the lists lent for them.
#[derive(Clone, Copy, Debug, PartialEq, Eq)]
pub struct Net {
    pub tot: i64,
    pub tot7: i64,
}

// How many dates stand in the list lent for them, and how many there are.
#[derive(Clone, Copy, Debug, PartialEq, Eq)]
pub struct Band {
    pub written: u64,
    pub found: u64,
}

// FRESH and BLANK over the run dates among 7 and among 365, and the oldest origin of the date.
#[derive(Clone, Copy, Debug, PartialEq, Eq)]
pub struct Coverage {
    pub fresh7: u64,
    pub blanks7: u64,
    pub fresh365: u64,
    pub blanks365: u64,
    pub oldest: u64,
}
