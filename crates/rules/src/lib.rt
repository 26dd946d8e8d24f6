// The rules as tables: which a constraint has, what each needs and gives.
#![tactic(auto)]

ghost use Rattle.std.specs.Prelude.{◌≡◌};
ghost use Rattle.problem.specs.Table.{kind_of};
ghost use Rattle.constraints.specs.Decoded.{decoded};
ghost use Rattle.rules.specs.Spans.{Spanned};
ghost use Rattle.rules.specs.Rows.{sets, numbered, LowPair, HasRow, HasChild, laid, parted, only, child, literals_of, count_of, denying};

use constraints::{Constraint, Negation, Operands, Relation};
use std::ops::Range;
use terms::{OUT, SetVar, Term};

// A literal, by its number, which is also that of a branch's row: k is "in set k", OUT + k is "out of set k". That it is low is asked where a row is read, as of a `Term`.
#[derive(Clone, Copy)]
pub struct Literal(pub u8);

// Rules by number, from the first up to the end. It is a type of its own since a range is not Copy.
#[derive(Clone, Copy)]
pub struct Span {
    pub first: u8,
    pub end: u8,
}

impl Span {
    // The numbers, lowest first.
    pub fn rules(self) -> Range<u8>
        ensures { (result.start ≡ self.first) × (result.end ≡ self.end) }
    {
        self.first..self.end
    }
}

// A propagation rule, at any class: two literals that it needs known (the same twice, if it needs but one), and the one that it gives. A row, a child and a denial repeat what they have too few of, so that one test serves all, with no if; with an Option each use would match.
#[derive(Clone, Copy)]
pub struct Row(pub Literal, pub Literal, pub Literal);

// A split, at any class: a literal that it needs known, and two sets, left and right, that it needs undecided. One child is in the left set; the other is out of it, and in the right one.
#[derive(Clone, Copy)]
pub struct Split(pub Literal, pub SetVar, pub SetVar);

// A child, by its literals: of two the last stands again, of one all are the same.
#[derive(Clone, Copy)]
pub struct Child(pub Literal, pub Literal, pub Literal);

// A negation's split, by its children: of two the last stands again, of one all are the same.
#[derive(Clone, Copy)]
pub struct Denial(pub Child, pub Child, pub Child);

// A rule of a constraint, by its number, and the root that it concerns. The numbers are document 01's: a trace has them as bytes, their order is the order of work, and a constraint's rules are a range of them. An enum of twenty variants, named by their numbers, would be turned into numbers and back.
#[derive(Clone, Copy)]
pub struct Instance<'a> {
    pub constraint: Constraint<'a>,
    pub rule: u8,
    pub root: Term,
}

// The propagation rules of a constraint, by number, or its split: one search serves both sorts, and hands on which (`Scope`).
pub fn span_of(l: &Constraint, split: bool) -> Span
    ensures { Spanned split (kind_of (decoded l.now)) result.first result.end }
{
    if split {
        return match *l {
            Constraint::Negated(Negation::Unequal, _, _) => Span { first: 7, end: 8 },
            Constraint::Related(Relation::Union, _) => Span { first: 12, end: 13 },
            Constraint::Listed(_, _, _) => Span { first: 20, end: 21 },
            _ => Span { first: 0, end: 0 },
        };
    }
    match *l {
        Constraint::Member(_, _) => Span { first: 1, end: 2 },
        Constraint::Nonmember(_, _) => Span { first: 2, end: 3 },
        Constraint::Same(_, _) => Span { first: 3, end: 4 },
        Constraint::Different(_, _) => Span { first: 4, end: 5 },
        Constraint::Related(Relation::Equal, _) => Span { first: 5, end: 7 },
        Constraint::Related(Relation::Union, _) => Span { first: 8, end: 12 },
        Constraint::Related(Relation::Disjoint, _) => Span { first: 13, end: 15 },
        Constraint::Related(Relation::Subset, _) => Span { first: 15, end: 16 },
        Constraint::Related(Relation::Intersection, _) => Span { first: 16, end: 19 },
        Constraint::Listed(_, _, _) => Span { first: 19, end: 20 },
        Constraint::Negated(_, _, _) => Span { first: 0, end: 0 },
    }
}

// Rules 5, 6, 8 to 11 and 13 to 18, by number, as an instance has it. Only two variants have sets: the match that finds them hands them on.
pub fn row_of(rule: u8, of: Operands) -> Row
    requires { HasRow rule of }
    ensures { result ≡ laid (sets of) (numbered rule) }
{
    let Operands(a, b, c) = of;
    let ina = Literal(a.0);
    let inb = Literal(b.0);
    let inc = Literal(c.0);
    let outa = Literal(OUT + a.0);
    let outb = Literal(OUT + b.0);
    match rule {
        5 => Row(ina, ina, inb),
        6 => Row(inb, inb, ina),
        8 => Row(ina, ina, inc),
        9 => Row(inb, inb, inc),
        10 => Row(inc, outa, inb),
        11 => Row(inc, outb, ina),
        13 => Row(ina, ina, outb),
        14 => Row(inb, inb, outa),
        15 => Row(ina, ina, inb),
        16 => Row(inc, inc, ina),
        17 => Row(inc, inc, inb),
        // rule 18
        _ => Row(ina, inb, inc),
    }
}

// Rule 12.
pub fn split_of(of: Operands) -> Split
    ensures { result ≡ parted (sets of) (numbered 12) }
{
    let Operands(a, b, c) = of;
    Split(Literal(c.0), a, b)
}

// Rule 7.
pub fn denial_of(of: Operands) -> Denial
    requires { LowPair of }
    ensures { result ≡ denying (sets of) (numbered 7) }
{
    let Operands(a, b, _) = of;
    let x = Child(Literal(a.0), Literal(OUT + b.0), Literal(OUT + b.0));
    let y = Child(Literal(OUT + a.0), Literal(b.0), Literal(b.0));
    Denial(x, y, y)
}

// How many children a rule can have, any but 20, by number, as an instance has it.
pub fn count_of(rule: u8) -> usize
    ensures { result ≡ count_of rule }
{
    match rule {
        7 | 12 => 2,
        _ => 1,
    }
}

// The child of one literal.
pub fn alone(l: Literal) -> Child
    ensures { result ≡ only l }
{
    Child(l, l, l)
}

// Child n of a rule from 5 to 18, by number, as an instance has it.
pub fn child_of(rule: u8, of: Operands, n: usize) -> Child
    requires { HasChild rule of n }
    ensures { result ≡ child (sets of) (literals_of rule n) }
{
    match (rule, n) {
        (7, 0) => denial_of(of).0,
        (7, _) => denial_of(of).1,
        (12, 0) => alone(Literal(split_of(of).1.0)),
        (12, _) => {
            let s = split_of(of);
            Child(Literal(OUT + s.1.0), Literal(s.2.0), Literal(s.2.0))
        }
        _ => alone(row_of(rule, of).2),
    }
}
