// A problem's table.
use terms::{MOST_CONSTRAINTS, Term};

// Where a constraint's kind byte stands, and the number of its witness; where it has none, of the next one: an Option would be matched where it cannot be None.
// A place and no slice: so a line takes few bytes, and copying the table costs little.
#[derive(Clone, Copy)]
pub struct Line {
    pub at: u16,
    pub witness: Term,
}

// How many of each there are, and a line for each constraint (specs/Table.antt). All else is read from the problem's bytes. There is no heap: the array is as long as the limit.
#[derive(Clone, Copy)]
pub struct Table {
    pub constants: u8,
    pub variables: u8,
    pub sets: u8,
    pub constraints: u8,
    pub terms: u8,
    pub lines: [Line; MOST_CONSTRAINTS],
}
