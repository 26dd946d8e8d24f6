// The run: a branch is worked until it splits, and each child is worked as a branch.
#![tactic(auto)]

ghost use Rattle.std.specs.Prelude.{◌≡◌, ◌*◌, ◌≤◌, length};
ghost use Rattle.calculus.specs.Limits.{most_steps};
ghost use Rattle.calculus.specs.Run.{DONE};
ghost use Rattle.records.specs.State.{state, written, end_of, SameBuffers};
ghost use Rattle.solver.specs.ComesTo.{Wakes, ComesTo, SplitComesTo, Begun, Ready, Splits, Runs};

use bits::low_bits;
use branch::Branch;
use marks::{PAIR, Prepared, prepare, woken};
use problem::Problem;
use records::{Counts, Output, Step, Stop};
use search::{Found, Scope, search};
use step::{Act, act_of, child_at, child_count, kept, perform, slots};

// A problem as prepared, and how many steps its run may take.
#[derive(Clone, Copy)]
pub struct Run<'a> {
    pub prepared: Prepared<'a>,
    pub budget: usize,
}

// The constraints, as bits, of which a propagation rule may apply, and those of which a split may.
#[derive(Clone, Copy)]
pub struct Awake {
    pub wake: u64,
    pub ripe: u64,
}

// A split that a search found, with the children that are left, as bits.
#[derive(Clone, Copy)]
pub struct FoundSplit<'a> {
    pub found: Found<'a>,
    pub left: u64,
}

// How a run ended, and its counts.
#[derive(Clone, Copy)]
pub struct Ended {
    pub counts: Counts,
    pub end: Result<(), Stop>,
}

// The constraints, as bits, that an act wakes.
fn wakes(run: &Prepared, a: Act) -> u64
    ensures { Wakes run.now.marks a result }
{
    match a {
        Act::Note(_, x, y) => woken(&run.marks, x, y),
        Act::Merge(_, _) => run.marks[PAIR as usize],
        Act::Close => 0,
    }
}

// Works a branch as it was asserted: propagation until no rule applies; then it is a solved form, or it splits. A conflict closes it.
#[cycle(children_work)]
fn work(run: &Run, next: &Branch, awake: Awake, out: &mut Output) -> Result<(), Stop>
    requires { Ready run.now.prepared.problem.bytes.now run.now.prepared.problem.table next.now awake.wake awake.ripe × Begun run.now.prepared.problem.table.terms run.now.budget (written out.old DONE) }
    ensures comes_to { ComesTo run.now.prepared.problem.bytes.now run.now.prepared.problem.table run.now.budget next.now (written out.old DONE) (written out.new (end_of result)) }
    ensures same_buffers { SameBuffers out.old out.new }
{
    let prepared = &run.prepared;
    let mut at = *next;
    let mut wake = awake.wake;
    let mut ripe = awake.ripe;
    while let Some(found) = &search(
        prepared,
        &at,
        Scope {
            split: false,
            among: wake,
        },
    ) {
        let place = &found.instance;
        let act = act_of(&at, place, 0);
        let conflict = perform(&mut at, act);
        let step = Step {
            rule: place.rule,
            constraint: found.number,
            root: place.root,
            children: !conflict as u8,
        };
        out.take_step(run.budget, step)?;
        if conflict {
            return Ok(());
        }
        let more = wakes(prepared, act);
        wake = found.left | more;
        ripe |= more;
    }
    let Some(found) = search(
        prepared,
        &at,
        Scope {
            split: true,
            among: ripe,
        },
    ) else {
        return out.list_form(&at, prepared.problem.table.terms);
    };
    let place = &found.instance;
    let left = kept(&at, place);
    let step = Step {
        rule: place.rule,
        constraint: found.number,
        root: place.root,
        children: child_count(left),
    };
    out.take_step(run.budget, step)?;
    children(run, &at, &FoundSplit { found, left }, out)
}

// Works the children of a split in order, until one stops the run. By number, as the order is told: of rule 20 some numbers have no child, and an iterator would loop over these.
#[cycle(children_work)]
fn children(run: &Run, b: &Branch, split: &FoundSplit, out: &mut Output) -> Result<(), Stop>
    requires { Splits run.now.prepared.problem.bytes.now run.now.prepared.problem.table b.now split.now × Begun run.now.prepared.problem.table.terms run.now.budget (written out.old DONE) }
    ensures comes_to { SplitComesTo run.now.prepared.problem.bytes.now run.now.prepared.problem.table run.now.budget b.now split.now.found (written out.old DONE) (written out.new (end_of result)) }
    ensures same_buffers { SameBuffers out.old out.new }
{
    let place = &split.found.instance;
    let mut left = split.left;
    for k in 0..slots(place) {
        let turn = child_at(b, place, k, left);
        left = turn.left;
        if let Some(act) = turn.act {
            let mut next = *b;
            perform(&mut next, act);
            let more = wakes(&run.prepared, act);
            let awake = Awake {
                wake: more,
                ripe: split.found.left | more,
            };
            work(run, &next, awake, out)?;
        }
    }
    Ok(())
}

// Runs a problem from its start. Who calls has only the buffers that C lends: the `Output` is made here.
pub fn solve(problem: &Problem, budget: usize, forms: &mut [u8], trace: &mut [u8]) -> Ended
    requires { (budget ≤ most_steps) × (4 * budget ≤ length trace.old) }
    ensures { Runs problem.now.bytes.now budget forms.old trace.old (state result.counts (end_of result.end) forms.new trace.new) }
{
    let run = Run {
        prepared: prepare(problem),
        budget,
    };
    let all = low_bits(problem.table.constraints);
    let awake = Awake {
        wake: all,
        ripe: all,
    };
    let mut out = Output {
        counts: Counts { steps: 0, forms: 0 },
        forms,
        trace,
    };
    let start = Branch::start(problem.table.constants);
    let end = work(&run, &start, awake, &mut out);
    Ended {
        counts: out.counts,
        end,
    }
}
