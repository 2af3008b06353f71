// The reader: shows the records of a tape one after another.
ghost use Rattle.std.specs.Prelude.{◌≡◌, ◌-◌, ◌≤◌, length};
ghost use Rattle.std.specs.Iterator.{at_most};
ghost use Rattle.tape.specs.Reads.{NextIs, NextContentIs, ItemIs};

use crate::contents::Placed;
use crate::faults::{Reason, TapeFault};
use crate::kinds::Kind;
use crate::records::Record;

// A tape and the place that the reader has come to. After a fault the reader is at the end.
#[derive(Drop)]
pub struct Reader<'a> {
    tape: &'a [u8],
    at: usize,
    ghost within: { at ≤ length tape.now },
}

impl<'a> Reader<'a> {
    pub fn new(tape: &'a [u8]) -> Reader<'a>
        ensures tape { result.tape.now ≡ tape.now }
        ensures start { result.at ≡ 0 }
    {
        Reader { tape, at: 0 }
    }

    // The record at the reader's place, or None at the end of the tape.
    pub fn next_record(&mut self) -> Result<Option<Record<'a>>, TapeFault>
        ensures tape { self.new.tape.now ≡ self.old.tape.now }
        ensures shows { NextIs self.old.tape.now self.old.at result self.new.at }
    {
        let place = self.at;
        let Some((byte, rest)) = self.tape[place..].split_first() else {
            return Ok(None);
        };
        self.at = self.tape.len();
        let Ok(kind) = Kind::try_from(*byte) else {
            return Err(TapeFault {
                reason: Reason::UnknownKind,
                place,
            });
        };
        let Some(body) = rest.get(..kind.body_length()) else {
            return Err(TapeFault {
                reason: Reason::CutShort,
                place,
            });
        };
        self.at = place + 1 + body.len();
        Ok(Some(Record { kind, place, body }))
    }

    // The same record with its fields, beside its place.
    pub fn next_content(&mut self) -> Result<Option<Placed>, TapeFault>
        ensures tape { self.new.tape.now ≡ self.old.tape.now }
        ensures shows { NextContentIs self.old.tape.now self.old.at result self.new.at }
    {
        match self.next_record()? {
            Some(record) => Ok(Some(record.placed()?)),
            None => Ok(None),
        }
    }
}

// The records, and last a fault where the tape has one.
impl<'a> Iterator for Reader<'a> {
    type Item = Result<Record<'a>, TapeFault>;

    ghost next_gives = { λ s r u. (u.tape.now ≡ s.tape.now) × ItemIs s.tape.now s.at r u.at };

    ghost remaining = { λ s. at_most (length s.tape.now - s.at) };

    fn next(&mut self) -> Option<Result<Record<'a>, TapeFault>> {
        self.next_record().transpose()
    }
}
