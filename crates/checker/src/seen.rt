// A problem and an assignment to it.
ghost use Rattle.std.specs.Prelude.{◌≡◌, map, ◌*◌, ◌+◌, ◌≤◌, ◌<◌, length, All};
ghost use Rattle.calculus.specs.Terms.{set_var};
ghost use Rattle.calculus.specs.Reading.{read, signed, words};
ghost use Rattle.calculus.specs.Check.{has, holds?, lowest};
ghost use Rattle.problem.specs.Table.{constraints_of, constraint_of};

use crate::{has, has_value, relates};
use assignment::Assignment;
use constraints::{Constraint, Operands, Relation, decode};
use problem::Problem;
use slices::word;
use terms::{SetVar, Term};

// Each variable has a value.
#[derive(Clone, Copy)]
pub struct Seen<'a> {
    pub problem: Problem<'a>,
    pub handed: Assignment<'a>,
    pub ghost valued: { 2 * problem.table.variables ≤ length handed.values.now },
}

impl<'a> Seen<'a> {
    ghost use Rattle.checker.specs.Tested.{value_at, seen, entries_in, failing};

    // The value of a term that a constraint can name: its two bytes in the problem or in the assignment.
    fn value(&self, t: Term) -> u16
        requires { t.0 < self.now.problem.table.constants + self.now.problem.table.variables }
        ensures { (signed result ≡ value_at self.now t.0) × (result < 65536) }
    {
        let constants = self.problem.table.constants;
        if t.0 < constants {
            return self.problem.constant(t);
        }
        word(self.handed.values, 2 * (t.0 - constants) as usize)
    }

    // The members of a set.
    fn members(&self, a: SetVar) -> &'a [u8]
        requires { a.0 < self.now.problem.table.sets }
        ensures { words result.now ≡ (seen self.now).members (set_var a.0) }
    {
        self.handed.members[a.0 as usize]
    }

    // Whether some entry has a value.
    fn is_entry(&self, list: &[u8], x: u16) -> bool
        requires { All (λ e. e < self.now.problem.table.constants + self.now.problem.table.variables) list.now }
        ensures { result ≡ has (map (value_at self.now) list.now) (signed x) }
    {
        list.iter().any(|e| self.value(Term(*e)) == x)
    }

    // Whether every member is the value of some entry, and every entry's value is a member.
    fn exactly(&self, list: &[u8], members: &[u8]) -> bool
        requires { All (λ e. e < self.now.problem.table.constants + self.now.problem.table.variables) list.now }
        ensures { result ≡ entries_in self.now list.now (words members.now) }
    {
        members
            .as_chunks::<2>()
            .0
            .iter()
            .all(|m| self.is_entry(list, u16::from_le_bytes(*m)))
            && list.iter().all(|e| has(members, self.value(Term(*e))))
    }

    // Whether constraint i is true of the assignment.
    fn holds(&self, i: usize) -> bool
        requires { i < self.now.problem.table.constraints }
        ensures { result ≡ holds? (seen self.now) (constraint_of self.now.problem.bytes.now i) }
    {
        match decode(&self.problem, i) {
            Constraint::Member(t, a) => has_value(self.members(a), self.value(t)),
            Constraint::Nonmember(t, a) => !has_value(self.members(a), self.value(t)),
            Constraint::Same(t, u) => self.value(t) == self.value(u),
            Constraint::Different(t, u) => self.value(t) != self.value(u),
            Constraint::Related(k, Operands(a, b, c)) => {
                relates(k, self.members(a), self.members(b), self.members(c))
            }
            Constraint::Negated(_, Operands(a, b, c), _) => {
                !relates(
                    Relation::Equal,
                    self.members(a),
                    self.members(b),
                    self.members(c),
                )
            }
            Constraint::Listed(_, a, entries) => self.exactly(entries, self.members(a)),
        }
    }

    // The lowest constraint that is false of the assignment, if any.
    pub fn lowest(&self) -> Option<u8>
        ensures { lowest (seen self.now) 0 (constraints_of (read self.now.problem.bytes.now)) ≡ failing result }
    {
        (0..self.problem.table.constraints).find(|i| !self.holds(*i as usize))
    }
}
