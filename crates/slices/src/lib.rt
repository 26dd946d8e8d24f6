// Bytes of slices: two of them as a number, ascending numbers, bytes written at a place; and the numbers of all terms.
#![tactic(auto)]

ghost use Rattle.std.specs.Prelude.{◌≡◌, ◌&&◌, ◌+◌, ◌≤◌, ◌<◌, length};
ghost use Rattle.calculus.specs.Limits.{most_terms};
ghost use Rattle.calculus.specs.Lists.{up_from};
ghost use Rattle.calculus.specs.Reading.{ascending, words};
ghost use Rattle.slices.specs.Bytes.{bytes_at, word_at, in_bounds, within, put_at};

use terms::MOST_TERMS;

// Two bytes, low first. That they are below 65,536 is said too, here and where a value is read: callers' proofs use it.
pub fn word(part: &[u8], at: usize) -> u16
    requires { at + 1 < length part.now }
    ensures { (result ≡ bytes_at part.now at) × (result < 65536) }
{
    u16::from_le_bytes([part[at], part[at + 1]])
}

// Two bytes, low first, as a signed number.
pub fn signed(part: &[u8], at: usize) -> i16
    requires { at + 1 < length part.now }
    ensures { result ≡ word_at part.now at }
{
    word(part, at).cast_signed()
}

// Whether two-byte numbers, signed, are strictly ascending.
pub fn ascends(part: &[u8]) -> bool
    ensures { result ≡ ascending (words part.now) }
{
    let pairs = part.as_chunks::<2>().0;
    pairs.is_sorted_by(|a, b| i16::from_le_bytes(*a) < i16::from_le_bytes(*b))
}

// Whether they are strictly ascending and from lo to hi; either bound may be beyond 16 bits.
pub fn rising(part: &[u8], lo: i64, hi: i64) -> bool
    ensures { result ≡ (ascending (words part.now) && within lo hi (words part.now)) }
{
    let pairs = part.as_chunks::<2>().0;
    ascends(part)
        && pairs.iter().all(
            |pair| -> bool
                ensures { result ≡ in_bounds lo hi (word_at pair.now 0) }
            {
                let n = i64::from(signed(pair, 0));
                lo <= n && n <= hi
            },
        )
}

// Writes bytes at a place of a buffer.
pub fn put(bytes: &[u8], buffer: &mut [u8], at: usize)
    requires { at + length bytes.now ≤ length buffer.old }
    ensures { buffer.new ≡ put_at buffer.old at bytes.now }
{
    buffer[at..at + bytes.len()].copy_from_slice(bytes);
}

// The numbers of all terms, upward from 0.
pub static NUMBERS: [u8; MOST_TERMS] = [
    0, 1, 2, 3, 4, 5, 6, 7, 8, 9, 10, 11, 12, 13, 14, 15, 16, 17, 18, 19, 20, 21, 22, 23, 24, 25,
    26, 27, 28, 29, 30, 31, 32, 33, 34, 35, 36, 37, 38, 39, 40, 41, 42, 43, 44, 45, 46, 47, 48, 49,
    50, 51, 52, 53, 54, 55, 56, 57, 58, 59, 60, 61, 62, 63,
];

// A copy of them, to be written over.
pub fn term_numbers() -> [u8; MOST_TERMS]
    ensures { result ≡ up_from 0 most_terms }
{
    NUMBERS
}
