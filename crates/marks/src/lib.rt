// What a run looks up: of each constraint its entries, and of each mark the constraints that have it, as bits.
#![tactic(auto)]

mod prepared;

ghost use Rattle.std.specs.Prelude.{◌≡◌, ◌&&◌, ℕ, ◌<◌, get_or};
ghost use Rattle.calculus.specs.Limits.{most_sets, most_terms};
ghost use Rattle.calculus.specs.Lists.{up_from, any, bit};
ghost use Rattle.calculus.specs.Invariants.{ConstraintIn};
ghost use Rattle.constraints.specs.Decoded.{decoded};
ghost use Rattle.branch.specs.Rows.{literals, literal_count};
ghost use Rattle.rules.specs.Rows.{HasRow};
ghost use Rattle.marks.specs.Marks.{Premised, NeedsOf};

use bits::{bit_at, gathered, turn_words};
use branch::literals_of;
use constraints::{Constraint, Operands, decode};
use fits::entry_bits;
pub use prepared::Prepared;
use problem::Problem;
use rules::{row_of, span_of, split_of};
use terms::{LITERALS, MOST_CONSTRAINTS, Mask, SetVar};

// Marks of a constraint beside the literals that it needs: a rule of it needs two facts of one class; it may rest; it has a split.
pub const PAIR: u8 = LITERALS as u8;

pub const REST: u8 = PAIR + 1;

pub const SPLIT: u8 = PAIR + 2;

// How many marks there are.
pub const MARKS: usize = LITERALS + 3;

// The literals, as bits, that a propagation rule, by number, of three sets needs. PAIR says that it needs two.
fn premises(rule: u8, of: Operands) -> u64
    requires { HasRow rule of × (of.2.0 < most_sets) }
    ensures { Premised of rule result }
{
    let r = row_of(rule, of);
    let word = bit_at(r.0.0) | bit_at(r.1.0);
    // Sets may be the same. That a rule needs two literals shows at three that differ.
    let form = row_of(rule, Operands(SetVar(0), SetVar(1), SetVar(2)));
    if form.0.0 == form.1.0 {
        return word;
    }
    word | bit_at(PAIR)
}

// The literals, as bits, that the rules of a constraint need, and its other marks.
fn needed(l: &Constraint) -> u64
    requires { ConstraintIn most_terms most_sets (decoded l.now) }
    ensures { NeedsOf (decoded l.now) result }
{
    match *l {
        Constraint::Different(_, _) => bit_at(PAIR) | bit_at(REST),
        Constraint::Related(_, of) => {
            let mut found = 0u64;
            for j in span_of(l, false).rules() {
                found |= premises(j, of);
            }
            if !span_of(l, true).rules().is_empty() {
                return found | bit_at(split_of(of).0.0) | bit_at(SPLIT);
            }
            found
        }
        Constraint::Negated(_, _, _) => bit_at(SPLIT),
        Constraint::Listed(_, a, _) => bit_at(a.0) | bit_at(REST) | bit_at(SPLIT),
        _ => 0,
    }
}

// What is looked up in a run of a problem.
pub fn prepare<'a>(problem: &Problem<'a>) -> Prepared<'a>
    ensures { (result.problem.bytes.now ≡ problem.now.bytes.now) × (result.problem.table ≡ problem.now.table) }
{
    let mut entries = [0; MOST_CONSTRAINTS];
    let mut marks = [0; MARKS];
    for i in 0..problem.table.constraints {
        let n = i as usize;
        let l = decode(problem, n);
        entries[n] = entry_bits(l.entries());
        turn_words(&mut marks, needed(&l), bit_at(i), 0);
    }
    Prepared {
        problem: *problem,
        entries,
        marks,
    }
}

// The constraints, as bits, that need a literal of the masks.
pub fn woken(marks: &[u64; MARKS], ins: Mask, outs: Mask) -> u64
    ensures { (i : ℕ) → bit result i ≡ any (λ k. bit (literals ins outs) k && bit (get_or marks.now k 0) i) (up_from 0 literal_count) }
{
    gathered(marks, literals_of(ins, outs) as u64)
}
