// Whole tapes: read to their end, written from a list of contents, and written again from what was read.
ghost use Rattle.std.specs.Prelude.{◌≡◌, length, nat_le};
ghost use Rattle.tape.specs.Laws.{tape_bytes};
ghost use Rattle.tape.specs.Writes.{Puts};
ghost use Rattle.tape.specs.Tapes.{Counts, ReadBack, Rewrites};

use crate::contents::Content;
use crate::faults::{Fault, WriteFault};
use crate::reading::Reader;

// The number of records on a regular tape, or its fault. No `count`, which would not stop at a fault.
pub fn count_records(tape: &[u8]) -> Result<usize, Fault>
    ensures { Counts tape.now result }
{
    let mut n = 0;
    for record in Reader::new(tape) {
        let _ = record?;
        n += 1;
    }
    Ok(n)
}

// Whether the records of all the contents take at most so many bytes.
fn fit_in(contents: &[Content], room: usize) -> bool
    ensures { result ≡ nat_le (length (tape_bytes contents.now)) room }
{
    let mut left = room;
    for content in contents {
        let Some(rest) = left.checked_sub(content.length()) else {
            return false;
        };
        left = rest;
    }
    true
}

// Puts the records of all the contents at the front of the area, one right behind another, and
// answers the number of their bytes, or writes nothing.
pub fn write_all(contents: &[Content], area: &mut [u8]) -> Result<usize, WriteFault>
    ensures wrote { Puts (tape_bytes contents.now) area.old result area.new }
    ensures reads_back { ReadBack contents.now result area.new }
{
    if !fit_in(contents, area.len()) {
        return Err(WriteFault::AreaTooShort);
    }
    // No index: the number of bytes so far, which is the answer.
    let mut at = 0;
    for content in contents {
        at += content.write(&mut area[at..])?;
    }
    Ok(at)
}

// Reads a tape and writes the content of each record again, one right behind another, at the front
// of the area. Of a regular tape that gives the same bytes; a faulty one is written up to its fault.
// Where the area is shorter than the tape it writes nothing.
pub fn rewrite(tape: &[u8], area: &mut [u8]) -> Result<usize, Fault>
    ensures { Rewrites tape.now area.old result area.new }
{
    if area.len() < tape.len() {
        return Err(Fault::from(WriteFault::AreaTooShort));
    }
    // No index: the number of bytes so far, which is the answer.
    let mut at = 0;
    for record in Reader::new(tape) {
        let content = record?.content()?;
        at += content.write(&mut area[at..])?;
    }
    Ok(at)
}
