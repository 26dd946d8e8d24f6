// The problem's bytes: what is asked of them, where each part stands, and what stands there.
#![tactic(auto)]

mod accepted;
mod sections;
mod table;

ghost use Rattle.std.specs.Prelude.{◌≡◌};
ghost use Rattle.calculus.specs.Reading.{read};
ghost use Rattle.questions.specs.Answers.{Answers};
ghost use Rattle.problem.specs.Table.{TableOf};

pub use accepted::{Problem, entries};
use questions::{Names, Refusal};
use sections::{constants_at, constraints_at, sets_at, variables_at};
pub use table::{Line, Table};
use terms::{MOST_BYTES, MOST_CONSTRAINTS, MOST_TERMS};

// Questions 1 to 11, in their order; the first "no" refuses.
pub fn read(bytes: &[u8]) -> Result<Problem, Refusal>
    ensures { Answers (λ prob p. (p.bytes.now ≡ bytes.now) × TableOf prob p.table) (read bytes.now) result }
{
    if MOST_BYTES < bytes.len() {
        return Err(Refusal::TooLong);
    }
    let (constants, rest) = constants_at(bytes)?;
    let (variables, rest) = variables_at(rest)?;
    let (sets, rest) = sets_at(rest)?;
    let Some((m, rest)) = rest.split_first() else {
        return Err(Refusal::CutShort);
    };
    let m = *m as usize;
    if MOST_CONSTRAINTS < m {
        return Err(Refusal::TooManyConstraints);
    }
    let k = constants.len() / 2;
    let names = Names {
        constants,
        nameable: k + variables.len(),
        sets: sets.len(),
    };
    let found = constraints_at(rest, bytes.len() - rest.len(), m, &names)?;
    if found.length < rest.len() {
        return Err(Refusal::LeftOver);
    }
    if MOST_TERMS < found.terms {
        return Err(Refusal::TooManyTerms);
    }
    let lines = found.lines;
    let table = Table {
        constants: k as u8,
        variables: variables.len() as u8,
        sets: sets.len() as u8,
        constraints: m as u8,
        terms: found.terms as u8,
        lines,
    };
    Ok(Problem { bytes, table })
}
