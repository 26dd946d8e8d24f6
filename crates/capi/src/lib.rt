// The calls that the tablet's program makes, through crate capi_c. Each answers in one word; docs/ANSWER.md has its layout.
#![tactic(auto)]

mod verdict;

ghost use Rattle.std.specs.Prelude.{◌≡◌, ◌*◌, ◌≤◌, length};
ghost use Rattle.calculus.specs.Limits.{most_steps};
ghost use Rattle.calculus.specs.Calls.{refusal, ended, verdict_of, answer_word, check, check_word};
ghost use Rattle.questions.specs.Answers.{number_of};
ghost use Rattle.records.specs.State.{end_of};
ghost use Rattle.capi.specs.Contract.{RunContract, Determined, CheckContract};
ghost use Rattle.capi.specs.Words.{word_of};

use assignment::lay_out;
use checker::Seen;
use problem::read;
use questions::Refusal;
use records::Stop;
use solver::{Ended, solve};
use terms::MOST_STEPS;
pub use verdict::{Judgement, Verdict};

// The word of a refusal. No From, here and below: this is a word's layout, and `ended` asks that its counts are small.
fn declined(no: Refusal) -> u64
    ensures { result ≡ answer_word (refusal (number_of no)) }
{
    256 * (no as u64)
}

// The word of a call, or of its refusal.
fn word(answer: Result<u64, Refusal>) -> u64
    ensures { result ≡ word_of answer }
{
    answer.unwrap_or_else(declined)
}

// The word of a run that ended. A run takes at most 10,000 steps and lists at most 650,001 forms.
fn ended(run: Ended) -> u64
    requires { (run.counts.steps ≤ most_steps) × (run.counts.forms ≤ 650001) }
    ensures { result ≡ answer_word (ended (verdict_of (end_of run.end) run.counts.forms) run.counts.steps run.counts.forms) }
{
    let verdict = match run.end {
        Err(Stop::Spent) => Verdict::Spent,
        Err(Stop::NoRoom) => Verdict::NoRoom,
        Ok(()) if run.counts.forms == 0 => Verdict::False,
        Ok(()) => Verdict::Forms,
    };
    u64::from(verdict) + 65536 * run.counts.steps as u64 + 4294967296 * run.counts.forms as u64
}

// The word of a run, or why the call is refused.
fn run(problem: &[u8], budget: u64, forms: &mut [u8], trace: &mut [u8]) -> Result<u64, Refusal>
    ensures { Determined problem.now budget forms.old trace.old (word_of result) forms.new trace.new }
{
    let problem = read(problem)?;
    if budget > MOST_STEPS as u64 {
        return Err(Refusal::Budget);
    }
    let steps = budget as usize;
    if trace.len() < 4 * steps {
        return Err(Refusal::Trace);
    }
    Ok(ended(solve(&problem, steps, forms, trace)))
}

// Runs a problem: lists its solved forms, and traces its steps.
pub fn fuselinda_run(problem: &[u8], budget: u64, forms: &mut [u8], trace: &mut [u8]) -> u64
    ensures { Determined problem.now budget forms.old trace.old result forms.new trace.new × RunContract problem.now budget forms.old trace.old result forms.new trace.new }
{
    word(run(problem, budget, forms, trace))
}

// The word of an assignment check, or why the call is refused.
fn checked(problem: &[u8], assignment: &[u8]) -> Result<u64, Refusal>
    ensures { word_of result ≡ check_word (check problem.now assignment.now) }
{
    let problem = read(problem)?;
    let table = problem.table;
    let Some(handed) = lay_out(assignment, table.variables, table.sets) else {
        return Err(Refusal::Assignment);
    };
    let seen = Seen { problem, handed };
    Ok(match seen.lowest() {
        Some(i) => u64::from(Judgement::Fails) + 256 * i as u64,
        None => u64::from(Judgement::Holds),
    })
}

// Checks an assignment that was worked by hand.
pub fn fuselinda_check(problem: &[u8], assignment: &[u8]) -> u64
    ensures { (result ≡ check_word (check problem.now assignment.now)) × CheckContract problem.now assignment.now result }
{
    word(checked(problem, assignment))
}
