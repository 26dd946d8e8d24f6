// The answer of a run, from its answer word.
ghost use Rattle.listing_lines.specs.Writing.{ReadOff};

use capi::Verdict;

// The number of a refusal, which alone is printed; or the verdict, and how many steps and forms there are. Here alone a verdict's number is read: a TryFrom beside `Verdict` would have the same arms, and an error that no word has. It is no `Result`, since a refusal is nothing that fails here: a listing prints both.
#[derive(Clone, Copy)]
pub enum Answer {
    Refused(u64),
    Ended(Verdict, u64, u64),
}

impl From<u64> for Answer {
    ghost from_gives = { ReadOff };

    fn from(word: u64) -> Answer {
        let steps = word / 65536 % 65536;
        let forms = word / 4294967296;
        match word % 256 {
            0 => Answer::Refused(word / 256 % 256),
            1 => Answer::Ended(Verdict::Forms, steps, forms),
            2 => Answer::Ended(Verdict::False, steps, forms),
            3 => Answer::Ended(Verdict::Spent, steps, forms),
            _ => Answer::Ended(Verdict::NoRoom, steps, forms),
        }
    }
}
