// What a constraint of a problem can name.
ghost use Rattle.std.specs.Prelude.{◌<◌};
ghost use Rattle.calculus.specs.Problem.{Rising};
ghost use Rattle.calculus.specs.Reading.{words};

// The constants, two bytes each, as the calculus's `words` reads them; and how many terms and sets a constraint can name, the constants first. The bytes are not in it: each question is asked of those that are left.
#[derive(Clone, Copy)]
pub struct Names<'a> {
    pub constants: &'a [u8],
    pub nameable: usize,
    pub sets: usize,
    ghost rising: { Rising (words constants.now) },
    ghost few_terms: { nameable < 512 },
}
