// A constraint, decoded from the problem's bytes.
#![tactic(auto)]

ghost use Rattle.std.specs.Prelude.{◌≡◌, map, ◌≤◌, ◌<◌, length};
ghost use Rattle.calculus.specs.Limits.{most_terms};
ghost use Rattle.calculus.specs.Terms.{term};
ghost use Rattle.calculus.specs.Problem.{entries};
ghost use Rattle.problem.specs.Table.{Stands, witness_of};
ghost use Rattle.constraints.specs.Decoded.{entries_in, Unpacked};

use problem::{Problem, entries};
use questions::Kind;
use slices::NUMBERS;
use terms::{SetVar, Term};

// The relations between sets; and those that a constraint can deny (`Negation`).
#[derive(Clone, Copy)]
pub enum Relation {
    Equal,
    Union,
    Disjoint,
    Subset,
    Intersection,
}

#[derive(Clone, Copy)]
pub enum Negation {
    Unequal,
}

// Where the entries of a set are from: written in the problem, or the numbers from a first to a last. No code reads it: by it the contract says which constraint it is.
#[derive(Clone, Copy)]
pub enum Entries {
    Written,
    Interval(Term, Term),
}

// The sets A, B and C of the rules' tables; a constraint of two sets repeats its first, as in the calculus: with an Option each use of C would match.
#[derive(Clone, Copy)]
pub struct Operands(pub SetVar, pub SetVar, pub SetVar);

// A constraint with its operands; a negation has its witness, and a list or an interval its entries.
#[derive(Clone, Copy)]
pub enum Constraint<'a> {
    Member(Term, SetVar),
    Nonmember(Term, SetVar),
    Same(Term, Term),
    Different(Term, Term),
    Related(Relation, Operands),
    Negated(Negation, Operands, Term),
    Listed(Entries, SetVar, &'a [u8]),
}

impl<'a> Constraint<'a> {
    // The entries of a list or an interval; others have none.
    pub fn entries(&self) -> &'a [u8]
        ensures { result.now ≡ entries_in self.now }
    {
        match *self {
            Constraint::Listed(_, _, entries) => entries,
            _ => &[],
        }
    }
}

// The terms from a first to a last; none if the first is above.
fn interval(first: Term, last: Term) -> &'static [u8]
    requires { first.0 ≤ last.0 → last.0 < most_terms }
    ensures { (map term result.now ≡ entries (term first.0) (term last.0)) × (length result.now ≤ most_terms) }
{
    if last.0 < first.0 {
        return &[];
    }
    &NUMBERS[first.0 as usize..last.0 as usize + 1]
}

// Constraint i, whose kind byte stands at an offset. The entries of a list are a part of the problem, those of an interval a part of the numbers.
pub fn decode_at<'a>(bytes: &'a [u8], i: usize, at: usize, witness: Term) -> Constraint<'a>
    requires { Stands bytes.now i at × (term witness.0 ≡ witness_of bytes.now i) }
    ensures { Unpacked bytes.now i result }
{
    let line = &bytes[at..];
    let Ok(kind) = Kind::try_from(line[0]) else {
        unreachable!()
    };
    let p = line[1];
    let q = line[2];
    let a = SetVar(p);
    let b = SetVar(q);
    match kind {
        Kind::Member => Constraint::Member(Term(p), b),
        Kind::Nonmember => Constraint::Nonmember(Term(p), b),
        Kind::Same => Constraint::Same(Term(p), Term(q)),
        Kind::Different => Constraint::Different(Term(p), Term(q)),
        Kind::Equal => Constraint::Related(Relation::Equal, Operands(a, b, a)),
        Kind::Unequal => Constraint::Negated(Negation::Unequal, Operands(a, b, a), witness),
        Kind::Union => Constraint::Related(Relation::Union, Operands(a, b, SetVar(line[3]))),
        Kind::Disjoint => Constraint::Related(Relation::Disjoint, Operands(a, b, a)),
        Kind::Subset => Constraint::Related(Relation::Subset, Operands(a, b, a)),
        Kind::Intersection => {
            Constraint::Related(Relation::Intersection, Operands(a, b, SetVar(line[3])))
        }
        Kind::Exactly => Constraint::Listed(Entries::Written, a, entries(bytes, i, at)),
        Kind::Interval => {
            let first = Term(q);
            let last = Term(line[3]);
            let entries = interval(first, last);
            Constraint::Listed(Entries::Interval(first, last), a, entries)
        }
    }
}

// Constraint i of an accepted problem.
pub fn decode<'a>(problem: &Problem<'a>, i: usize) -> Constraint<'a>
    requires { i < problem.now.table.constraints }
    ensures { Unpacked problem.now.bytes.now i result }
{
    let line = problem.table.lines[i];
    decode_at(problem.bytes, i, line.at as usize, line.witness)
}
