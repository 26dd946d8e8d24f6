// Why a problem, a call or an assignment is refused.

// The questions that can refuse, by what they ask; each number is document 01's (`number_of`, specs/Answers.antt).
#[derive(Clone, Copy, PartialEq, Eq)]
pub enum Refusal {
    TooLong = 1,
    CutShort = 2,
    Constants = 3,
    Variables = 4,
    Sets = 5,
    TooManyConstraints = 6,
    Kind = 7,
    Operand = 8,
    Interval = 9,
    LeftOver = 10,
    TooManyTerms = 11,
    Budget = 12,
    Trace = 13,
    Assignment = 14,
}
