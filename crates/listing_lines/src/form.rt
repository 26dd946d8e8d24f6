// The line of a solved form: what its model gives each variable and set.
ghost use Rattle.std.specs.Prelude.{◌≡◌, ◌∷◌, [], ◌++◌, suc, ◌+◌, ◌≤◌, ◌<◌, length, get_or};
ghost use Rattle.calculus.specs.Limits.{most_sets, most_terms};
ghost use Rattle.calculus.specs.Terms.{term, set_var};
ghost use Rattle.calculus.specs.Reading.{signed};
ghost use Rattle.calculus.specs.Forms.{record_length, model_number, model};
ghost use Rattle.text.specs.Text.{braces, Says};
ghost use Rattle.listing_lines.specs.Listing.{form_line};
ghost use Rattle.listing_lines.specs.Writing.{Shaped, problem_in, inside_at, member_text, item_at};

use bits::has_bit;
use branch::{inside_in, root_in};
use problem::Problem;
use terms::{SetVar, Term};
use text::Text;

// A problem and the record of one of its solved forms. No Display, as `Text` says; and a text is lent beside it, since in it each method would have to promise the form back.
#[derive(Clone, Copy)]
pub struct Form<'a> {
    pub problem: Problem<'a>,
    pub record: &'a [u8],
    pub ghost shaped: { Shaped (problem_in problem.bytes.now) record.now },
}

impl Form<'_> {
    // The value of a term in the model.
    fn value(&self, t: Term) -> u16
        requires { t.0 < self.now.problem.table.terms }
        ensures { signed result ≡ model_number (problem_in self.now.problem.bytes.now) self.now.record.now (term t.0) }
    {
        let h = root_in(self.record, t.0 as usize);
        if h < self.problem.table.constants as usize {
            return self.problem.constant(Term(h as u8));
        }
        32001 + h as u16
    }

    // Whether a term is a root whose class is known to be in a set.
    fn is_inside(&self, t: Term, set: SetVar) -> bool
        requires { (t.0 < self.now.problem.table.terms) × (set.0 < most_sets) }
        ensures { result ≡ inside_at self.now.record.now set.0 t.0 }
    {
        let i = t.0 as usize;
        root_in(self.record, i) == i && has_bit(inside_in(self.record, i) as u64, set.0)
    }

    // The member of a set that a term stands for, if any, a comma before it unless it is the first.
    fn say_member(&self, set: SetVar, t: Term, start: usize, text: &mut Text)
        requires { (t.0 < self.now.problem.table.terms) × (set.0 < most_sets) × (text.old.end + 7 ≤ length text.old.buffer.now) }
        ensures says { Says text.old (member_text (problem_in self.now.problem.bytes.now) self.now.record.now set.0 t.0 start text.old.end) text.new }
        ensures short { text.new.end ≤ text.old.end + 7 }
    {
        if self.is_inside(t, set) {
            text.lead(b',', start);
            text.number(self.value(t));
        }
    }

    // The members of a set.
    fn say_members(&self, set: SetVar, text: &mut Text)
        requires { (set.0 < most_sets) × (text.old.end + 450 ≤ length text.old.buffer.now) }
        ensures says { Says text.old (braces ((model (problem_in self.now.problem.bytes.now) self.now.record.now).members (set_var set.0))) text.new }
        ensures short { text.new.end ≤ text.old.end + 450 }
    {
        text.say(b"{");
        let start = text.end;
        for t in 0..self.problem.table.terms {
            self.say_member(set, Term(t), start, text);
        }
        text.say(b"}");
    }

    // A variable or a set: its letter, an equals sign and its value. One index counts both, as a line's items are one list.
    fn say_item(&self, k: usize, text: &mut Text)
        requires { (k < self.now.problem.table.variables + self.now.problem.table.sets) × (text.old.end + 452 ≤ length text.old.buffer.now) }
        ensures says { Says text.old (item_at (problem_in self.now.problem.bytes.now) self.now.record.now k) text.new }
        ensures short { text.new.end ≤ text.old.end + 452 }
    {
        let constants = self.problem.table.constants as usize;
        let variables = self.problem.table.variables as usize;
        if k < variables {
            text.say(&[self.problem.bytes[2 + 2 * constants + k], b'=']);
            text.number(self.value(Term((constants + k) as u8)));
        } else {
            text.say(&[self.problem.bytes[3 + 2 * constants + k], b'=']);
            self.say_members(SetVar((k - variables) as u8), text);
        }
    }

    // The line.
    pub fn say_line(&self, text: &mut Text)
        requires { (text.old.end ≡ 0) × (32768 ≤ length text.old.buffer.now) }
        ensures says { Says text.old (form_line (problem_in self.now.problem.bytes.now) self.now.record.now) text.new }
    {
        let table = &self.problem.table;
        for k in 0..table.variables as usize + table.sets as usize {
            text.lead(b' ', 0);
            self.say_item(k, text);
        }
        text.say(b"\n");
    }
}
