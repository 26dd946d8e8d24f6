// The questions that are asked of a problem's bytes, one function each.
#![tactic(auto)]

mod kind;
mod names;
mod refusal;

ghost use Rattle.std.specs.Prelude.{◌≡◌, ◌&&◌, ◌+◌, ◌*◌, ◌≤◌, ◌<◌, length};
ghost use Rattle.std.specs.Range.{range_inclusive_start, range_inclusive_end};
ghost use Rattle.calculus.specs.Limits.{most_bytes};
ghost use Rattle.calculus.specs.Problem.{Rising};
ghost use Rattle.calculus.specs.Reading.{ascending, in_range, letters, gapless, constraint, words};
ghost use Rattle.questions.specs.Questions.{operands_at, list_at, interval_at, kind_at, Scans};

pub use kind::Kind;
pub use names::Names;
pub use refusal::Refusal;
use slices::{rising, signed};
use std::ops::RangeInclusive;

// How many bytes a constraint has, and how many witnesses: a number, since they are added up.
#[derive(Clone, Copy)]
pub struct Scanned {
    pub length: usize,
    pub witnesses: u8,
}

// Question 3: the constants are strictly ascending, and from -32,000 to 32,000. Beside `letters_ok`: their elements are read in another way, which one function would take as a closure.
pub fn constants_ok(constants: &[u8]) -> bool
    ensures { result ≡ (ascending (words constants.now) && in_range (words constants.now)) }
{
    rising(constants, -32_000, 32_000)
}

// Questions 4 and 5: strictly ascending letters of a range. By its ends: of a range iterated to its end `contains` promises nothing.
pub fn letters_ok(part: &[u8], range: RangeInclusive<u8>) -> bool
    ensures { result ≡ letters (range_inclusive_start range) (range_inclusive_end range) part.now }
{
    let (lo, hi) = range.into_inner();
    part.is_sorted_by(|a, b| *a < *b) && part.iter().all(|c| lo <= *c && *c <= hi)
}

// Question 9, of rising constants: from constant i to constant j the value rises by as much as the place.
fn gapless_ok(constants: &[u8], i: usize, j: usize) -> bool
    requires { Rising (words constants.now) × (2 * i + 1 < length constants.now) × (2 * j + 1 < length constants.now) }
    ensures { result ≡ gapless (words constants.now) i j }
{
    if j <= i {
        return true;
    }
    let lo = signed(constants, 2 * i);
    let hi = signed(constants, 2 * j);
    hi.abs_diff(lo) as usize == j - i
}

// Operands, each below its bound: how many bytes they have.
fn operands_at(bytes: &[u8], bounds: &[usize]) -> Result<usize, Refusal>
    ensures { result ≡ operands_at bounds.now bytes.now }
{
    let Some(operands) = bytes.get(..bounds.len()) else {
        return Err(Refusal::CutShort);
    };
    if operands.iter().zip(bounds).all(|(p, n)| (*p as usize) < *n) {
        return Ok(bounds.len());
    }
    Err(Refusal::Operand)
}

// A set, a count, and as many terms.
fn list_at(bytes: &[u8], names: &Names) -> Result<usize, Refusal>
    ensures { result ≡ list_at names.now.nameable names.now.sets bytes.now }
{
    let [set, n, rest @ ..] = bytes else {
        return Err(Refusal::CutShort);
    };
    let Some(entries) = rest.get(..*n as usize) else {
        return Err(Refusal::CutShort);
    };
    if (*set as usize) < names.sets && entries.iter().all(|e| (*e as usize) < names.nameable) {
        return Ok(2 + entries.len());
    }
    Err(Refusal::Operand)
}

// A set and two terms, which are constants with no whole number missing between them.
fn interval_at(bytes: &[u8], names: &Names) -> Result<usize, Refusal>
    ensures { result ≡ interval_at (words names.now.constants.now) names.now.nameable names.now.sets bytes.now }
{
    let length = operands_at(bytes, &[names.sets, names.nameable, names.nameable])?;
    let constants = names.constants.len() / 2;
    let i = bytes[1] as usize;
    let j = bytes[2] as usize;
    if i < constants && j < constants && gapless_ok(names.constants, i, j) {
        return Ok(length);
    }
    Err(Refusal::Interval)
}

// The operands of a constraint of a kind: how many bytes they have.
fn kind_at(kind: Kind, bytes: &[u8], names: &Names) -> Result<usize, Refusal>
    ensures { result ≡ kind_at kind (words names.now.constants.now) names.now.nameable names.now.sets bytes.now }
{
    let terms = names.nameable;
    let sets = names.sets;
    match kind {
        Kind::Member | Kind::Nonmember => operands_at(bytes, &[terms, sets]),
        Kind::Same | Kind::Different => operands_at(bytes, &[terms, terms]),
        Kind::Equal | Kind::Unequal | Kind::Disjoint | Kind::Subset => {
            operands_at(bytes, &[sets, sets])
        }
        Kind::Union | Kind::Intersection => operands_at(bytes, &[sets, sets, sets]),
        Kind::Exactly => list_at(bytes, names),
        Kind::Interval => interval_at(bytes, names),
    }
}

// The questions of the constraint that begins the bytes (2, 7, 2, 8, 9), in their order.
pub fn constraint_at(bytes: &[u8], names: &Names) -> Result<Scanned, Refusal>
    requires { length bytes.now ≤ most_bytes }
    ensures { Scans (length bytes.now) (constraint (words names.now.constants.now) names.now.nameable names.now.sets 0 bytes.now) result }
{
    let Some((byte, operands)) = bytes.split_first() else {
        return Err(Refusal::CutShort);
    };
    let kind = Kind::try_from(*byte)?;
    let length = kind_at(kind, operands, names)?;
    Ok(Scanned {
        length: 1 + length,
        witnesses: (kind == Kind::Unequal) as u8,
    })
}
