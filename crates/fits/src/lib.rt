// Where a rule applies: the roots, as bits.
#![tactic(auto)]

ghost use Rattle.std.specs.Prelude.{◌≡◌, [], ◌^◌, ◌<◌};
ghost use Rattle.std.specs.Int.Bits.{bit_and};
ghost use Rattle.calculus.specs.Limits.{most_sets, most_terms};
ghost use Rattle.calculus.specs.Lists.{Each};
ghost use Rattle.calculus.specs.Invariants.{Falls};
ghost use Rattle.branch.specs.Held.{root_of};
ghost use Rattle.fits.specs.Words.{unshared_of, rests_by, Low, row_at, LowRow, LowSplit, LowChild, LowDenial, forced_word, divided_word, met_word, denied_word, RootBits, missed, EntryBits, ByEntries, Looked, Asked, FitsFor};

use bits::{bit_at, has_bit};
use branch::{Branch, root_at};
use constraints::Constraint;
use rules::{Child, Denial, Literal, Row, Split, denial_of, row_of, split_of};
use terms::{OUT, SetVar, Term};

// The roots of which a literal is known, as bits.
fn known(b: &Branch, l: Literal) -> u64
    requires { Low l }
    ensures { result ≡ row_at b.now.rows l }
{
    b.rows[l.0 as usize]
}

// The roots at which a propagation rule applies.
fn forced(b: &Branch, r: Row) -> u64
    requires { LowRow r }
    ensures { result ≡ forced_word b.now.rows r }
{
    known(b, r.0) & known(b, r.1) & !known(b, r.2)
}

// The roots at which a split applies.
fn divided(b: &Branch, s: Split) -> u64
    requires { LowSplit s }
    ensures { result ≡ divided_word b.now.rows s }
{
    let left = known(b, Literal(s.1.0)) | known(b, Literal(OUT + s.1.0));
    let right = known(b, Literal(s.2.0)) | known(b, Literal(OUT + s.2.0));
    known(b, s.0) & !(left | right)
}

// The roots of which all literals of a child are known.
fn met(b: &Branch, c: Child) -> u64
    requires { LowChild c }
    ensures { result ≡ met_word b.now.rows c }
{
    known(b, c.0) & known(b, c.1) & known(b, c.2)
}

// The root of t's class.
#[tactic(auto, using(branch::proofs::Roots::root_le))]
pub fn root(b: &Branch, t: Term) -> Term
    requires { (t.0 < most_terms) × Falls b.now.parents }
    ensures { (result.0 ≡ root_of b.now.parents t.0) × (result.0 < most_terms) }
{
    Term(root_at(&b.parents, t.0 as usize) as u8)
}

// The root of two terms' class, as a bit, if it is one: there rule 4 applies.
fn together(b: &Branch, t: Term, u: Term) -> u64
    requires { (t.0 < most_terms) × (u.0 < most_terms) × Falls b.now.parents }
    ensures { result ≡ bit_and (2 ^ root_of b.now.parents t.0) (2 ^ root_of b.now.parents u.0) }
{
    bit_at(root(b, t).0) & bit_at(root(b, u).0)
}

// The root of a negation's witness, if its split applies there.
fn denied(b: &Branch, d: Denial, w: Term) -> u64
    requires { (w.0 < most_terms) × Falls b.now.parents × LowDenial d }
    ensures { result ≡ denied_word b.now.rows d (root_of b.now.parents w.0) }
{
    bit_at(root(b, w).0) & !met(b, d.0) & !met(b, d.1) & !met(b, d.2)
}

// The roots of the entries' classes. One line, as `entry_bits` is: a function for both would take a closure with its contract, and be longer.
pub fn entry_roots(list: &[u8], b: &Branch) -> u64
    requires { Each (λ e. e < most_terms) list.now × Falls b.now.parents }
    ensures { RootBits b.now.parents list.now result }
{
    list.iter()
        .fold(0, |found, e| found | bit_at(root(b, Term(*e)).0))
}

// The root of the first entry whose class is not in a row. A list is a part of the problem's bytes: as a struct it would be made anew at each call.
fn first_missing(list: &[u8], b: &Branch, row: u64) -> u64
    requires { Each (λ e. e < most_terms) list.now × Falls b.now.parents }
    ensures { result ≡ missed b.now.parents row list.now }
{
    list.iter()
        .map(|e| root(b, Term(*e)).0)
        .find(|h| !has_bit(row, *h))
        .map_or(0, bit_at)
}

// The entries of a list, as bits.
pub fn entry_bits(list: &[u8]) -> u64
    requires { Each (λ e. e < most_terms) list.now }
    ensures { EntryBits list.now result }
{
    list.iter().fold(0, |found, e| found | bit_at(*e))
}

// What a list and its set do not share, as bits: for splits, as a search asks (`Scope`), the roots of the set that are no entries, else the entries that are no roots of the set. Without any, rule 20 or rule 19 does not apply: a root that is an entry is in its own class.
fn unshared(b: &Branch, entries: u64, a: SetVar, split: bool) -> u64
    requires { a.0 < most_sets }
    ensures { result ≡ unshared_of b.now.rows entries split a }
{
    let row = known(b, Literal(a.0));
    if split {
        return row & !entries;
    }
    entries & !row
}

// One test shows that no propagation rule of a constraint applies, or no split, as a search asks (`Scope`). Only of constraints of kind 4 and of lists there is such a test.
pub fn rests(b: &Branch, entries: u64, l: &Constraint, split: bool) -> bool
    requires { Falls b.now.parents × Looked l.now }
    ensures { result ≡ rests_by b.now.parents b.now.rows entries split l.now }
{
    match *l {
        Constraint::Different(t, u) => together(b, t, u) == 0,
        Constraint::Listed(_, a, _) => unshared(b, entries, a, split) == 0,
        _ => false,
    }
}

// Rules 19 and 20, by number, as an instance has it, of a set and its entries. A run keeps a constraint's bits beside it: as a struct both would be made anew at each call.
fn by_entries(b: &Branch, list: &[u8], entries: u64, a: SetVar, rule: u8) -> u64
    requires { Falls b.now.parents × EntryBits list.now entries × (a.0 < most_sets) }
    ensures { ByEntries b.now.parents (row_at b.now.rows (record { 0 = a.0 })) list.now rule result }
{
    if rule == 19 {
        return first_missing(list, b, known(b, Literal(a.0)));
    }
    unshared(b, entries, a, true) & !entry_roots(list, b)
}

// The roots, as bits, at which a rule of a constraint, by number, as an instance has it, applies; of rule 19 only that of the first entry at which it does. What is promised is the lowest of them.
pub fn fitting(b: &Branch, entries: u64, l: &Constraint, rule: u8) -> u64
    requires { Falls b.now.parents × Asked entries l.now rule }
    ensures { FitsFor b.now.parents b.now.rows l.now rule result }
{
    match *l {
        Constraint::Member(t, a) => bit_at(root(b, t).0) & !known(b, Literal(a.0)),
        Constraint::Nonmember(t, a) => bit_at(root(b, t).0) & !known(b, Literal(OUT + a.0)),
        Constraint::Same(t, u) => bit_at(root(b, t).0) & !bit_at(root(b, u).0),
        Constraint::Different(t, u) => together(b, t, u),
        Constraint::Related(_, of) => {
            if rule == 12 {
                return divided(b, split_of(of));
            }
            forced(b, row_of(rule, of))
        }
        Constraint::Negated(_, of, w) => denied(b, denial_of(of), w),
        Constraint::Listed(_, a, list) => by_entries(b, list, entries, a, rule),
    }
}
