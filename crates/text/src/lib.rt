// Text in a buffer.
#![tactic(auto)]

ghost use Rattle.std.specs.Prelude.{◌≡◌, ◌+◌, ◌≤◌, length};
ghost use Rattle.calculus.specs.Reading.{signed};
ghost use Rattle.text.specs.Text.{decimal as Text·decimal, number as Text·number, led, Says};

use itoa::Buffer;
use slices::put;

// A buffer, and where the text in it ends: each method writes there, and keeps the buffer. Who calls it sees to it that there is room, so no write can fail; those of `Display` and `io::Cursor` answer a `Result`.
#[derive(Drop)]
pub struct Text<'a> {
    pub buffer: &'a mut [u8],
    pub end: usize,
}

impl Text<'_> {
    // Bytes as they are.
    #[tactic(auto, using(slices::proofs::Buffers::put_length))]
    pub fn say(&mut self, bytes: &[u8])
        requires { self.old.end + length bytes.now ≤ length self.old.buffer.now }
        ensures says { Says self.old bytes.now self.new }
    {
        put(bytes, self.buffer, self.end);
        self.end += bytes.len();
    }

    // A number in decimal.
    #[tactic(auto, using(crate::proofs::Texts::decimal_same))]
    pub fn decimal(&mut self, n: u64)
        requires { self.old.end + length (Text·decimal n) ≤ length self.old.buffer.now }
        ensures says { Says self.old (Text·decimal n) self.new }
    {
        self.say(Buffer::new().format(n).as_bytes());
    }

    // The whole number of a two-byte word, a minus sign first if negative.
    pub fn number(&mut self, x: u16)
        requires { self.old.end + 6 ≤ length self.old.buffer.now }
        ensures says { Says self.old (Text·number (signed x)) self.new }
        ensures short { self.new.end ≤ self.old.end + 6 }
    {
        self.say(Buffer::new().format(x.cast_signed()).as_bytes());
    }

    // A separator, unless nothing was written since a place.
    pub fn lead(&mut self, separator: u8, start: usize)
        requires { self.old.end + 1 ≤ length self.old.buffer.now }
        ensures says { Says self.old (led separator start self.old.end) self.new }
        ensures short { self.new.end ≤ self.old.end + 1 }
    {
        if self.end != start {
            self.say(&[separator]);
        }
    }
}
