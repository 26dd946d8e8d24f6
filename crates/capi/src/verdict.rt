// What a call answers, in two enums with a From each, since an impl is of one type; by the numbers that an answer word has; 0 is a refusal's (`run_number` and `judgement_number`, specs/Words.antt).
ghost use Rattle.std.specs.Prelude.{◌≡◌};
ghost use Rattle.capi.specs.Words.{run_number, judgement_number};

// The verdicts of a run.
#[derive(Clone, Copy, PartialEq, Eq)]
pub enum Verdict {
    Forms = 1,
    False = 2,
    Spent = 3,
    NoRoom = 4,
}

impl From<Verdict> for u64 {
    ghost from_gives = { λ verdict n. n ≡ run_number verdict };

    fn from(verdict: Verdict) -> u64 {
        verdict as u64
    }
}

// The verdicts of an assignment check.
#[derive(Clone, Copy, PartialEq, Eq)]
pub enum Judgement {
    Holds = 5,
    Fails = 6,
}

impl From<Judgement> for u64 {
    ghost from_gives = { λ judgement n. n ≡ judgement_number judgement };

    fn from(judgement: Judgement) -> u64 {
        judgement as u64
    }
}
