// What a run writes: records of solved forms and of steps, and the counts.
#![tactic(auto)]

ghost use Rattle.std.specs.Prelude.{◌≡◌, ◌+◌, ◌*◌, ◌≤◌, ◌<◌, ◌≢◌, length};
ghost use Rattle.calculus.specs.Limits.{most_terms};
ghost use Rattle.calculus.specs.Run.{DONE};
ghost use Rattle.calculus.specs.Forms.{record_of, record_length};
ghost use Rattle.calculus.specs.Invariants.{Falls};
ghost use Rattle.branch.specs.Held.{held};
ghost use Rattle.records.specs.State.{written, with_form, bytes_of, wrote_step, with_step, end_of, SameBuffers};

use branch::{Branch, record_length};
use slices::put;
use terms::Term;

// Why a run stops before its end: the budget is spent, or there is no room for a form.
#[derive(Clone, Copy, PartialEq, Eq)]
pub enum Stop {
    Spent,
    NoRoom,
}

// Steps taken and forms listed.
#[derive(Clone, Copy)]
pub struct Counts {
    pub steps: usize,
    pub forms: usize,
}

// A step, as a trace has it: its rule, its constraint, the root concerned and how many children are left.
#[derive(Clone, Copy)]
pub struct Step {
    pub rule: u8,
    pub constraint: u8,
    pub root: Term,
    pub children: u8,
}

// The counts, and the buffers that were lent: the counts say how much of each is written. There is no heap. That a buffer is still the one that was lent, each call promises (`SameBuffers`): a `&mut` field can be pointed elsewhere.
#[derive(Drop)]
pub struct Output<'a> {
    pub counts: Counts,
    pub forms: &'a mut [u8],
    pub trace: &'a mut [u8],
}

impl Output<'_> {
    // Lists a solved form of the first terms, if its record fits what is left of the form buffer.
    pub fn list_form(&mut self, b: &Branch, terms: u8) -> Result<(), Stop>
        requires { (terms ≤ most_terms) × Falls b.now.parents × (record_length terms * self.old.counts.forms ≤ length self.old.forms.now) × (terms ≡ 0 → self.old.counts.forms ≡ 0) }
        ensures lists { written self.new (end_of result) ≡ with_form terms (record_of terms (held b.now)) (written self.old DONE) }
        ensures same_buffers { SameBuffers self.old self.new }
    {
        let size = record_length(terms);
        let at = size * self.counts.forms;
        if self.forms.len() - at < size {
            return Err(Stop::NoRoom);
        }
        put(&b.record(terms)[..size], self.forms, at);
        self.counts.forms += 1;
        Ok(())
    }

    // Writes a step into the trace and counts it. Its four bytes are made here alone: a From would move one line.
    pub fn write_step(&mut self, step: Step)
        requires { 4 * self.old.counts.steps + 4 ≤ length self.old.trace.now }
        ensures writes { written self.new DONE ≡ wrote_step (bytes_of step) (written self.old DONE) }
        ensures same_buffers { SameBuffers self.old self.new }
    {
        let bytes = [step.rule, step.constraint, step.root.0, step.children];
        put(&bytes, self.trace, 4 * self.counts.steps);
        self.counts.steps += 1;
    }

    // The same, if the budget has a step left.
    pub fn take_step(&mut self, budget: usize, step: Step) -> Result<(), Stop>
        requires { self.old.counts.steps ≢ budget → 4 * self.old.counts.steps + 4 ≤ length self.old.trace.now }
        ensures writes { written self.new (end_of result) ≡ with_step budget (bytes_of step) (written self.old DONE) }
        ensures same_buffers { SameBuffers self.old self.new }
    {
        if self.counts.steps == budget {
            return Err(Stop::Spent);
        }
        self.write_step(step);
        Ok(())
    }
}
