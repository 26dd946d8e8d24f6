// The kinds of constraints.
ghost use Rattle.questions.specs.Kinds.{Decodes};

use crate::refusal::Refusal;

// What the kind byte of a constraint says.
#[derive(Clone, Copy, PartialEq, Eq)]
pub enum Kind {
    Member = 1,
    Nonmember = 2,
    Same = 3,
    Different = 4,
    Equal = 5,
    Unequal = 6,
    Union = 7,
    Disjoint = 8,
    Subset = 9,
    Intersection = 10,
    Exactly = 11,
    Interval = 12,
}

// Question 7: the byte is the number of a kind. Here alone the number is read.
impl TryFrom<u8> for Kind {
    type Error = Refusal;

    ghost try_from_gives = { Decodes };

    fn try_from(byte: u8) -> Result<Self, Refusal> {
        match byte {
            1 => Ok(Kind::Member),
            2 => Ok(Kind::Nonmember),
            3 => Ok(Kind::Same),
            4 => Ok(Kind::Different),
            5 => Ok(Kind::Equal),
            6 => Ok(Kind::Unequal),
            7 => Ok(Kind::Union),
            8 => Ok(Kind::Disjoint),
            9 => Ok(Kind::Subset),
            10 => Ok(Kind::Intersection),
            11 => Ok(Kind::Exactly),
            12 => Ok(Kind::Interval),
            _ => Err(Refusal::Kind),
        }
    }
}
