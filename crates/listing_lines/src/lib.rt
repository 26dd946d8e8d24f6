// The text of a listing.
#![tactic(auto)]

mod answer;
mod form;

ghost use Rattle.std.specs.Prelude.{◌≡◌, List, ℕ, ◌+◌, ◌/◌, ◌≤◌, length};
ghost use Rattle.calculus.specs.Calls.{over};
ghost use Rattle.text.specs.Text.{Says};
ghost use Rattle.listing_lines.specs.Listing.{heading, verdict_name, listing};
ghost use Rattle.listing_lines.specs.Writing.{Small, run_verdict, run_answer, ProgramRan, line_at};

use answer::Answer;
use branch::record_length;
use capi::Verdict;
use form::Form;
use problem::read;
use text::Text;

// The name of a run's verdict. No Display, here and in `Form`: its writes answer a Result (`Text`).
fn name_of(verdict: Verdict) -> &'static [u8]
    ensures { result.now ≡ verdict_name (run_verdict verdict) }
{
    match verdict {
        Verdict::Forms => b"FORMS ",
        Verdict::False => b"FALSE ",
        Verdict::Spent => b"SPENT ",
        Verdict::NoRoom => b"NOROOM ",
    }
}

// The first line, of the answer of a run.
#[tactic(auto, using(text::proofs::Texts::decimal_short, crate::proofs::Headings::forms_short, crate::proofs::Headings::name_short))]
fn say_heading(answer: Answer, text: &mut Text)
    requires { Small answer × (text.old.end + 64 ≤ length text.old.buffer.now) }
    ensures says { Says text.old (heading (run_answer answer)) text.new }
{
    match answer {
        Answer::Refused(number) => {
            text.say(b"REFUSED ");
            text.decimal(number);
            text.say(b"\n");
        }
        Answer::Ended(verdict, steps, forms) => {
            text.say(name_of(verdict));
            text.decimal(forms);
            text.say(b" STEPS ");
            text.decimal(steps);
            text.say(b"\n");
        }
    }
}

// How many lines the listing has: the first, and one for each form.
pub fn lines(word: u64) -> usize
    ensures { (result ≡ 1 + word / 4294967296) × ((bytes forms : List ℕ) → ProgramRan bytes word forms → result ≡ length (listing bytes)) }
{
    1 + (word / 4294967296) as usize
}

// Line i of the listing, from a run's answer word and form buffer. Writes it over the beginning of text, and answers how long it is; after the last line that is 0, the length of its text. No slice is answered: it would keep the buffer lent.
pub fn line(problem: &[u8], word: u64, forms: &[u8], i: usize, text: &mut [u8]) -> usize
    requires { ProgramRan problem.now word forms.now × (32768 ≤ length text.old) }
    ensures { (text.new ≡ over (line_at problem.now i) text.old) × (result ≡ length (line_at problem.now i)) }
{
    let mut text = Text {
        buffer: text,
        end: 0,
    };
    if i == 0 {
        say_heading(Answer::from(word), &mut text);
        return text.end;
    }
    if lines(word) <= i {
        return 0;
    }
    let Ok(problem) = read(problem) else {
        unreachable!()
    };
    let size = record_length(problem.table.terms);
    let from = size * (i - 1);
    let record = &forms[from..from + size];
    let form = Form { problem, record };
    form.say_line(&mut text);
    text.end
}
