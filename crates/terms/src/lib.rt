// The two sorts, and the limits of a problem.
#![tactic(auto)]

// A term, by its number: a constant, a variable or a witness. A term number and a set number are never used for one another. That a number is below a limit is asked where it is used: a narrower type would ask it of all who make one. No order is derived: at the three places that compare it would be a call, and its answer a law more.
#[derive(Clone, Copy)]
pub struct Term(pub u8);

// A set variable, by its number.
#[derive(Clone, Copy)]
pub struct SetVar(pub u8);

// The limits and widths of crates/calculus/specs/Limits.antt, for the code.
pub const MOST_BYTES: usize = 4096;

pub const MOST_SETS: usize = 8;

pub const MOST_CONSTRAINTS: usize = 48;

pub const MOST_TERMS: usize = 64;

pub const MOST_STEPS: usize = 10000;

pub const TERM_BYTES: usize = 3;

// The bytes of the longest record.
pub const RECORD_BYTES: usize = TERM_BYTES * MOST_TERMS;

// Sets, as bits.
pub type Mask = u8;

// Literals, as bits: those of a mask of sets that something is in, then those of one that it is out of.
pub type Literals = u16;

// How many masks there are: as literals, those of "out of" begin with this bit.
pub const MASKS: Literals = 1 << MOST_SETS;

// How many literals there are, and the number of the first that is "out of".
pub const LITERALS: usize = 2 * MOST_SETS;

pub const OUT: u8 = MOST_SETS as u8;
