// What a run looks up, made once from its problem.
ghost use Rattle.calculus.specs.Reading.{read};
ghost use Rattle.problem.specs.Table.{constraints_of};
ghost use Rattle.quiet.specs.Quiet.{WordsOf};

use crate::MARKS;
use problem::Problem;
use terms::MOST_CONSTRAINTS;

// A problem, and words of bits that a run looks up. There is no heap: they are two arrays, and a table's lines a third, which the check has too.
#[derive(Clone, Copy)]
pub struct Prepared<'a> {
    pub problem: Problem<'a>,
    // By constraint, its entries.
    pub entries: [u64; MOST_CONSTRAINTS],
    // By mark, the constraints that have it: at least those that need a literal, that a merge can wake, that have a split; and those that may rest.
    pub marks: [u64; MARKS],
    pub ghost words_are: { WordsOf (constraints_of (read problem.bytes.now)) entries marks },
}
