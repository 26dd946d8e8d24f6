// The assignment check: a test of each constraint, and the lowest that fails.
#![tactic(auto)]

mod seen;

ghost use Rattle.std.specs.Prelude.{◌≡◌};
ghost use Rattle.calculus.specs.Lists.{all};
ghost use Rattle.calculus.specs.Relations.{holds_at};
ghost use Rattle.calculus.specs.Reading.{signed, words};
ghost use Rattle.calculus.specs.Check.{has, relates?};
ghost use Rattle.constraints.specs.Decoded.{relation_of};
ghost use Rattle.checker.specs.Tested.{related_at};

use constraints::Relation;
pub use seen::Seen;

// Whether a value is among the members: sought by its place, since that is the faster loop (`any` takes a quarter longer).
fn has(members: &[u8], x: u16) -> bool
    ensures { result ≡ has (words members.now) (signed x) }
{
    members
        .as_chunks::<2>()
        .0
        .iter()
        .position(|m| u16::from_le_bytes(*m) == x)
        .is_some()
}

// The same, of the one value that a constraint names. Not inlined: where the answer is turned, as for kind 2, the loop would be longer.
#[inline(never)]
fn has_value(members: &[u8], x: u16) -> bool
    ensures { result ≡ has (words members.now) (signed x) }
{
    has(members, x)
}

// Whether a relation holds at a value that is in the first set, the second and the third, or not.
fn at_point(k: Relation, a: bool, b: bool, c: bool) -> bool
    ensures { result ≡ holds_at (relation_of k) a b c }
{
    match k {
        Relation::Equal => a == b,
        Relation::Union => c == (a | b),
        Relation::Disjoint => !(a & b),
        Relation::Subset => !a | b,
        Relation::Intersection => c == (a & b),
    }
}

// Whether a relation holds at every one of some members: those of l, m or r, named as the definition has them; in an array they would be numbers.
fn holds_at(k: Relation, part: &[u8], l: &[u8], m: &[u8], r: &[u8]) -> bool
    ensures { result ≡ all (related_at k l.now m.now r.now) (words part.now) }
{
    part.as_chunks::<2>().0.iter().all(|pair| {
        let x = u16::from_le_bytes(*pair);
        at_point(k, has(l, x), has(m, x), has(r, x))
    })
}

// Whether a relation holds of three sets; it is tested at their members, elsewhere it holds.
fn relates(k: Relation, l: &[u8], m: &[u8], r: &[u8]) -> bool
    ensures { result ≡ relates? (relation_of k) (words l.now) (words m.now) (words r.now) }
{
    holds_at(k, l, l, m, r) && holds_at(k, m, l, m, r) && holds_at(k, r, l, m, r)
}
