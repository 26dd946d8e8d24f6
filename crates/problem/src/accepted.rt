// A problem that was accepted: its bytes and its table, and what is read through it.
ghost use Rattle.std.specs.Prelude.{◌≡◌, map, ◌+◌, ◌≤◌, ◌<◌, get_or, drop, length};
ghost use Rattle.calculus.specs.Reading.{signed};
ghost use Rattle.calculus.specs.Terms.{term, set_var};
ghost use Rattle.calculus.specs.Meaning.{exactly};
ghost use Rattle.problem.specs.Table.{Opened, Stands, kind_of, line_of, constant_of, constraint_of};

use crate::table::Table;
use slices::word;
use terms::Term;

// Where a section stands follows from the counts before it: a slice of each would need a ghost field more, which who makes a Problem would have to prove.
#[derive(Clone, Copy)]
pub struct Problem<'a> {
    pub bytes: &'a [u8],
    pub table: Table,
    pub ghost opened: { Opened bytes.now table },
}

impl<'a> Problem<'a> {
    // The value of a constant, as its two bytes.
    #[tactic(auto, using(crate::proofs::Access::constant_read))]
    pub fn constant(&self, t: Term) -> u16
        requires { t.0 < self.now.table.constants }
        ensures { (signed result ≡ constant_of self.now.bytes.now t.0) × (result < 65536) }
    {
        word(self.bytes, 1 + 2 * t.0 as usize)
    }

    // The bytes from constraint i's kind byte on. That i is below the count is asked here and above: a narrower type could not name the problem that it belongs to.
    #[tactic(auto, using(crate::proofs::Access::line_low))]
    pub fn from(&self, i: usize) -> &'a [u8]
        requires { i < self.now.table.constraints }
        ensures { result.now ≡ drop (line_of self.now.table i).at self.now.bytes.now }
    {
        &self.bytes[self.table.lines[i].at as usize..]
    }

    // The entries of list constraint i.
    pub fn entries(&self, i: usize) -> &'a [u8]
        requires { (i < self.now.table.constraints) × (kind_of (constraint_of self.now.bytes.now i) ≡ 11) }
        ensures { (constraint_of self.now.bytes.now i ≡ exactly (set_var (get_or self.now.bytes.now ((line_of self.now.table i).at + 1) 0)) (map term result.now)) × (length result.now ≤ 255) }
    {
        entries(self.bytes, i, self.table.lines[i].at as usize)
    }
}

// The entries of list constraint i, whose kind byte stands at an offset: the part of the problem that has them. Of bytes and an offset, so that who has no table can ask too.
pub fn entries(bytes: &[u8], i: usize, at: usize) -> &[u8]
    requires { Stands bytes.now i at × (kind_of (constraint_of bytes.now i) ≡ 11) }
    ensures { (constraint_of bytes.now i ≡ exactly (set_var (get_or bytes.now (at + 1) 0)) (map term result.now)) × (length result.now ≤ 255) }
{
    let line = &bytes[at..];
    let n = line[2] as usize;
    &line[3..3 + n]
}
