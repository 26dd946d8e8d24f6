// Lists the solved forms of the problem on standard input.
#![tactic(auto)]

ghost use Rattle.std.specs.Prelude.{◌<◌, ◌≤◌, length, take, OnOk};
ghost use Rattle.std.specs.Io.KnownBytes.{Consumes, Appends, IsAtEnd};
ghost use Rattle.listing_lines.specs.Listing.{written};

use capi::fuselinda_run;
use listing_lines::{line, lines};
use std::io;
use std::io::{Read, Write};

// Reads until buf is full, the input ends or a read fails. Answers how many bytes it put at the start of buf, and whether all reads went well. std's `read_exact` does not say how many came.
fn read_full<R: Read>(from: &mut R, buf: &mut [u8]) -> (usize, io::Result<()>)
    ensures inside { result.0 ≤ length buf.new }
    ensures bytes { Consumes (R.remaining from.old) (R.remaining from.new) (take result.0 buf.new) }
    ensures whole { OnOk result.1 (result.0 < length buf.new → IsAtEnd (R.remaining from.new)) }
{
    let mut done = 0;
    while done < buf.len() {
        match from.read(&mut buf[done..]) {
            Ok(0) => break,
            Ok(n) => done += n,
            Err(e) => return (done, Err(e)),
        }
    }
    (done, Ok(()))
}

// Writes the listing of a problem, line by line, until a write fails.
fn list<W: Write>(problem: &[u8], to: &mut W) -> io::Result<()>
    ensures { OnOk result (Appends (W.contents to.old) (W.contents to.new) (written problem.now)) }
{
    let mut forms = [0u8; 32768];
    let mut trace = [0u8; 4000];
    let word = fuselinda_run(problem, 1000, &mut forms, &mut trace);
    let mut text = [0u8; 32768];
    for i in 0..lines(word) {
        let k = line(problem, word, &forms, i, &mut text);
        to.write_all(&text[..k])?;
    }
    Ok(())
}

fn main(rt: HostRuntime) -> io::Result<()> {
    // One byte more than a problem can have, so that a longer one is refused.
    let mut input = [0u8; 4097];
    // A read that fails ends the input: with closed input the listing is that of no bytes.
    let (n, _) = read_full(&mut rt.stdin(), &mut input);
    list(&input[..n], &mut rt.stdout())
}
