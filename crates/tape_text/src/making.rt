// A tape from its text.
ghost use Rattle.std.specs.Prelude.{◌≡◌, ◌++◌, Some, IfOk, OnOk};
ghost use Rattle.tape.specs.Contents.{record_bytes};
ghost use Rattle.tape.specs.Laws.{tape_bytes};
ghost use Rattle.tape_text.specs.declared.making.MakeFault.TheVariants.{NoMemory};
ghost use Rattle.tape_text.specs.Making.{make_fault_text, BehindPlace, LineIs, Reads, Makes};

use crate::parsing::parse;
use std::alloc::{AllocError, AllocFailed, Global};
use std::error::Error;
use std::fmt;
use tape::Content;

// Why no tape is made: a line, counted from 1, that is no record, or no memory. The two `From` are
// written by hand, since the clauses name the error that a `?` makes.
#[derive(Clone, Copy, Debug, PartialEq, Eq)]
pub enum MakeFault {
    BadLine(usize),
    NoMemory,
}

impl fmt::Display for MakeFault {
    ghost output = { λ e. Some (make_fault_text e) };

    fn fmt<W: fmt::Write>(&self, f: &mut fmt::Formatter<W>) -> fmt::Result {
        match self {
            MakeFault::BadLine(n) => write!(f, "line {n}: not a record"),
            MakeFault::NoMemory => f.write_str("no memory"),
        }
    }
}

impl Error for MakeFault {}

impl From<AllocError> for MakeFault {
    ghost from_gives = { λ _ r. r ≡ NoMemory };

    fn from(_e: AllocError) -> MakeFault {
        MakeFault::NoMemory
    }
}

impl<T: Drop> From<AllocFailed<T>> for MakeFault {
    ghost from_gives = { λ _ r. r ≡ NoMemory };

    fn from(_e: AllocFailed<T>) -> MakeFault {
        MakeFault::NoMemory
    }
}

// What a line of text is. Three names read plainer than a `Result` of an `Option`.
#[derive(Clone, Copy, Debug, PartialEq, Eq)]
pub enum Line {
    Remark,
    Record(Content),
    Bad,
}

// What stands behind the place, if the text has one.
fn behind_place(text: &str) -> &str
    ensures { BehindPlace text.now result.now }
{
    match text.split_once(':') {
        Some((_, behind)) => behind.trim(),
        None => text,
    }
}

// What a line is: a remark where it is blank or begins with `#`, else the record of its text.
pub fn read_line(heap: Global, line: &str) -> Result<Line, AllocError>
    ensures { IfOk result (LineIs line.now) }
{
    let text = line.trim();
    if text.is_empty() {
        return Ok(Line::Remark);
    }
    if text.starts_with('#') {
        return Ok(Line::Remark);
    }
    match parse(heap, behind_place(text))? {
        Some(content) => Ok(Line::Record(content)),
        None => Ok(Line::Bad),
    }
}

// The contents of the records of a text, in the order of their lines.
pub fn read_text(heap: Global, text: &str) -> Result<Vec<Content>, MakeFault>
    ensures { Reads text.now result }
{
    let mut contents = Vec::new(heap);
    for (i, line) in text.split_terminator('\n').enumerate() {
        match read_line(heap, line)? {
            Line::Remark => {}
            Line::Record(content) => contents.push(content)?,
            Line::Bad => return Err(MakeFault::BadLine(i + 1)),
        }
    }
    Ok(contents)
}

// The most bytes that a record takes.
const LONGEST: usize = 13;

// Adds a record's bytes.
fn append(tape: &mut Vec<u8>, content: Content) -> Result<(), AllocError>
    ensures { OnOk result (tape.new.items ≡ tape.old.items ++ record_bytes content) }
{
    let mut area = [0u8; LONGEST];
    let n = content.write(&mut area).unwrap();
    tape.extend_from_slice(&area[0..n])?;
    Ok(())
}

// The bytes of the records of all the contents, one right behind another.
pub fn bytes_of(heap: Global, contents: &[Content]) -> Result<Vec<u8>, AllocError>
    ensures { IfOk result (λ v. v.items ≡ tape_bytes contents.now) }
{
    let mut tape = Vec::new(heap);
    for content in contents {
        append(&mut tape, *content)?;
    }
    Ok(tape)
}

// The tape of a text.
pub fn make_tape(heap: Global, text: &str) -> Result<Vec<u8>, MakeFault>
    ensures { Makes text.now result }
{
    let contents = read_text(heap, text)?;
    let tape = bytes_of(heap, contents.as_slice())?;
    Ok(tape)
}
