// A line of text by value.
use arrayvec::ArrayVec;

// Every answer line is shorter.
pub type Line = ArrayVec<u8, 300>;
