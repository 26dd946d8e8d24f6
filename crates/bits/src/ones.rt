// The bits of a word, one by one.
ghost use Rattle.std.specs.Prelude.{◌≡◌};

// The numbers of a word's bits, the lowest first.
#[derive(Clone, Copy)]
pub struct Ones(pub u64);

impl Iterator for Ones {
    ghost use Rattle.std.specs.Iterator.{at_most};
    ghost use Rattle.bits.specs.Ones.{Gives};

    type Item = u8;

    ghost next_gives = { Gives };

    ghost remaining = { λ s. at_most s.0 };

    fn next(&mut self) -> Option<u8> {
        let word = self.0;
        if word == 0 {
            return None;
        }
        self.0 = word & (word - 1);
        Some(u64::trailing_zeros(word) as u8)
    }
}
