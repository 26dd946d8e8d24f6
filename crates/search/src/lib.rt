// The first place where a rule applies, among the constraints that may have one.
#![tactic(auto)]

ghost use Rattle.std.specs.Prelude.{◌≡◌, true, ℕ, ◌<◌};
ghost use Rattle.calculus.specs.Lists.{bit};
ghost use Rattle.calculus.specs.Branch as calculus;
ghost use Rattle.calculus.specs.Invariants.{Falls};
ghost use Rattle.calculus.specs.Reading.{read};
ghost use Rattle.problem.specs.Table.{constraints_of};
ghost use Rattle.fits.specs.Words.{Shown};
ghost use Rattle.quiet.specs.Quiet.{Quiet};
ghost use Rattle.search.specs.Narrowed.{Narrows};
ghost use Rattle.search.specs.First.{Finds};

use bits::{Ones, bit_at, low_bits};
use branch::Branch;
use constraints::decode;
use fits::{fitting, rests};
use marks::{Prepared, REST, SPLIT};
use rules::{Instance, span_of};
use terms::Term;

// What a search looks for, propagation rules or splits, and among which constraints, as bits. One search serves both sorts of rules, and hands on to span_of and rests which it is.
#[derive(Clone, Copy)]
pub struct Scope {
    pub split: bool,
    pub among: u64,
}

// What a search found: the number of a constraint, its rule that applies, and, as bits, the constraints that are left to look at.
#[derive(Clone, Copy)]
pub struct Found<'a> {
    pub number: u8,
    pub instance: Instance<'a>,
    pub left: u64,
}

// The constraints of a scope, as bits, without some that have no place: for splits those that have none, and always those that one test shows at rest.
fn looked_at(run: &Prepared, b: &Branch, scope: Scope) -> u64
    requires { Falls b.now.parents × ((i : ℕ) → bit scope.among i ≡ true → i < run.now.problem.table.constraints) }
    ensures { Narrows scope.split run.now.problem.bytes.now b.now.parents b.now.rows scope.among result }
{
    let mut kept = scope.among;
    if scope.split {
        kept &= run.marks[SPLIT as usize];
    }
    for n in Ones(kept & run.marks[REST as usize]) {
        let l = decode(&run.problem, n as usize);
        if rests(b, run.entries[n as usize], &l, scope.split) {
            kept &= !bit_at(n);
        }
    }
    kept
}

// The first place where a propagation rule applies, or where a split does. No constraint that the scope leaves out has one.
pub fn search<'a>(run: &'a Prepared, b: &Branch, scope: Scope) -> Option<Found<'a>>
    requires { Falls b.now.parents × ((i : ℕ) → bit scope.among i ≡ true → i < run.now.problem.table.constraints) }
    ensures { (c : calculus.Branch) → Shown c b.now.parents b.now.rows → Quiet scope.split run.now.problem.table.terms (constraints_of (read run.now.problem.bytes.now)) c scope.among → Finds scope.split run.now.problem.table.terms (constraints_of (read run.now.problem.bytes.now)) c result }
{
    let mut found = None;
    let looked = looked_at(run, b, scope);
    'search: for n in Ones(looked) {
        let l = decode(&run.problem, n as usize);
        for rule in span_of(&l, scope.split).rules() {
            let fit = fitting(b, run.entries[n as usize], &l, rule);
            for h in Ones(fit) {
                if h < run.problem.table.terms {
                    found = Some(Found {
                        number: n,
                        instance: Instance {
                            constraint: l,
                            rule,
                            root: Term(h),
                        },
                        left: looked & !low_bits(n),
                    });
                    break 'search;
                }
            }
        }
    }
    found
}
