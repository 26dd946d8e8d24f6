// An assignment that was handed in: question 14, and its parts. Nothing is copied.
#![tactic(auto)]

ghost use Rattle.std.specs.Prelude.{◌≤◌};
ghost use Rattle.calculus.specs.Limits.{most_sets};
ghost use Rattle.assignment.specs.Laid.{Lays, MembersOf};

use slices::ascends;
use terms::MOST_SETS;

// The values of the variables, and of each set its members, two bytes each. Beyond the sets there are none: there is no heap, and the array is as long as the limit.
#[derive(Clone, Copy)]
pub struct Assignment<'a> {
    pub values: &'a [u8],
    pub members: [&'a [u8]; MOST_SETS],
}

// A set: a count byte and its members, ascending. Answers the members, and what follows.
fn members_at(bytes: &[u8]) -> Option<(&[u8], &[u8])>
    ensures { MembersOf bytes.now result }
{
    let (count, rest) = bytes.split_first()?;
    let (members, rest) = rest.split_at_checked(2 * *count as usize)?;
    ascends(members).then_some((members, rest))
}

// Question 14: a count byte equal to the number of variables, a value each, then the sets; and no more.
pub fn lay_out(bytes: &[u8], variables: u8, sets: u8) -> Option<Assignment>
    requires { sets ≤ most_sets }
    ensures { Lays bytes.now variables sets result }
{
    let (count, rest) = bytes.split_first()?;
    if *count != variables {
        return None;
    }
    let (values, mut rest) = rest.split_at_checked(2 * variables as usize)?;
    let mut members = [&rest[..0]; MOST_SETS];
    for part in &mut members[..sets as usize] {
        (*part, rest) = members_at(rest)?;
    }
    rest.is_empty().then_some(Assignment { values, members })
}
