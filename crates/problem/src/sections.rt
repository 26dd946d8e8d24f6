// The sections of a problem: each function answers the question that refuses it, or its part and what follows.
ghost use Rattle.std.specs.Prelude.{◌≡◌, ◌+◌, ◌*◌, ◌≤◌, ◌<◌, length};
ghost use Rattle.std.specs.Range.{range_inclusive_start, range_inclusive_end};
ghost use Rattle.calculus.specs.Limits.{most_bytes, most_constraints};
ghost use Rattle.calculus.specs.Reading.{constraints, words};
ghost use Rattle.questions.specs.Answers.{Answers, number_of};
ghost use Rattle.problem.specs.Sections.{counted, letters_section, constants_section, variables_section, sets_section, Splits, FoundAs};

use crate::table::Line;
use questions::{Names, Refusal, constants_ok, constraint_at, letters_ok};
use std::ops::RangeInclusive;
use terms::{MOST_CONSTRAINTS, MOST_SETS, Term};

// Question 2 of a section: its count, and size bytes for each, are there.
fn section_at(bytes: &[u8], size: usize) -> Result<(&[u8], &[u8]), Refusal>
    requires { size ≤ 2 }
    ensures { Splits size (counted size bytes.now) result }
{
    let Some((n, rest)) = bytes.split_first() else {
        return Err(Refusal::CutShort);
    };
    rest.split_at_checked(size * *n as usize)
        .ok_or(Refusal::CutShort)
}

// Questions 2 and 3, of the constants. Beside `letters_at`: one function would take the test as a closure with its contract, and be longer.
pub fn constants_at(bytes: &[u8]) -> Result<(&[u8], &[u8]), Refusal>
    ensures { Splits 2 (constants_section bytes.now) result }
{
    let (constants, rest) = section_at(bytes, 2)?;
    if !constants_ok(constants) {
        return Err(Refusal::Constants);
    }
    Ok((constants, rest))
}

// Questions 2 and 4 or 5: letters of a range, or they are refused.
fn letters_at(
    bytes: &[u8],
    range: RangeInclusive<u8>,
    no: Refusal,
) -> Result<(&[u8], &[u8]), Refusal>
    ensures { Splits 1 (letters_section (number_of no) (range_inclusive_start range) (range_inclusive_end range) bytes.now) result }
{
    let (letters, rest) = section_at(bytes, 1)?;
    if !letters_ok(letters, range) {
        return Err(no);
    }
    Ok((letters, rest))
}

// Questions 2 and 4, of the variables.
pub fn variables_at(bytes: &[u8]) -> Result<(&[u8], &[u8]), Refusal>
    ensures { Splits 1 (variables_section bytes.now) result }
{
    letters_at(bytes, b'a'..=b'z', Refusal::Variables)
}

// Questions 2 and 5, of the set variables.
pub fn sets_at(bytes: &[u8]) -> Result<(&[u8], &[u8]), Refusal>
    ensures { Splits 1 (sets_section bytes.now) result }
{
    let (letters, rest) = letters_at(bytes, b'A'..=b'Z', Refusal::Sets)?;
    if MOST_SETS < letters.len() {
        return Err(Refusal::Sets);
    }
    Ok((letters, rest))
}

// What the constraints are found to be: how many bytes they have, how many terms there are then, and a line for each. There is no heap.
#[derive(Clone, Copy)]
pub struct Found {
    pub length: usize,
    pub terms: usize,
    pub lines: [Line; MOST_CONSTRAINTS],
}

// The constraints, one by one; the first stands at a place of the problem. Each has its own length, so the place is carried; terms can pass 255 until question 11 is asked.
pub fn constraints_at(bytes: &[u8], at: usize, m: usize, names: &Names) -> Result<Found, Refusal>
    requires { (at + length bytes.now ≤ most_bytes) × (m ≤ most_constraints) × (length (words names.now.constants.now) ≤ names.now.nameable) }
    ensures { Answers (FoundAs at names.now.nameable (length bytes.now)) (constraints (words names.now.constants.now) names.now.nameable names.now.sets names.now.nameable m bytes.now) result }
{
    let mut lines = [Line {
        at: 0,
        witness: Term(0),
    }; MOST_CONSTRAINTS];
    let mut length = 0;
    let mut terms = names.nameable;
    for line in &mut lines[..m] {
        let one = constraint_at(&bytes[length..], names)?;
        *line = Line {
            at: (at + length) as u16,
            witness: Term((terms % 256) as u8),
        };
        length += one.length;
        terms += one.witnesses as usize;
    }
    Ok(Found {
        length,
        terms,
        lines,
    })
}
