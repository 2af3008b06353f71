// What is wrong with a tape, and how a fault of any layer is carried up.
ghost use Rattle.std.specs.Prelude.{◌≡◌, Some};
ghost use Rattle.tape.specs.Faults.{reason_number, reason_text, layer_number, told_tape, told_writing, refusal_text, fault_text};

use std::error::Error;
use std::fmt;

// Why a tape is refused, each with the number that names it to the tape's writer. The reader finds
// the first two; the other three are found by whoever plays the tape.
#[derive(Clone, Copy, Debug, PartialEq, Eq)]
pub enum Reason {
    UnknownKind = 21,
    CutShort = 22,
    OutOfTurn = 23,
    PlanTooLarge = 24,
    TapeTooLong = 25,
}

// A fault of a tape, at the place of its record: the number of bytes before it.
#[derive(Clone, Copy, Debug, PartialEq, Eq)]
pub struct TapeFault {
    pub reason: Reason,
    pub place: usize,
}

// Why a record is not written.
#[derive(Clone, Copy, Debug, PartialEq, Eq)]
pub enum WriteFault {
    AreaTooShort,
}

// The layer that finds a fault, each with the number that names it in an answer.
#[derive(Clone, Copy, Debug, PartialEq, Eq)]
pub enum Layer {
    Tape = 1,
    Book = 2,
    Rate = 3,
}

// A fault of any layer, as it is carried up whole. A layer joins by a `From` of its own faults.
// Only the refusal of a link names a link's index; elsewhere it is 0.
// Four numbers and no enum of enums: an answer to C is these four, and layers above add their own.
#[derive(Clone, Copy, Debug, PartialEq, Eq)]
pub struct Fault {
    pub layer: Layer,
    pub number: u8,
    pub place: usize,
    pub link: u16,
}

impl Reason {
    // The number that names the reason to the tape's writer.
    pub fn code(self) -> u8
        ensures { result ≡ reason_number self }
    {
        self as u8
    }
}

impl fmt::Display for Reason {
    ghost output = { λ r. Some (reason_text r) };

    fn fmt<W: fmt::Write>(&self, f: &mut fmt::Formatter<W>) -> fmt::Result {
        f.write_str(match self {
            Reason::UnknownKind => "unknown kind of record",
            Reason::CutShort => "cut short",
            Reason::OutOfTurn => "record out of turn",
            Reason::PlanTooLarge => "plan too large",
            Reason::TapeTooLong => "tape too long",
        })
    }
}

// The number of the reason, the place, and the reason in words.
impl fmt::Display for TapeFault {
    ghost output = { λ e. Some (fault_text e) };

    fn fmt<W: fmt::Write>(&self, f: &mut fmt::Formatter<W>) -> fmt::Result {
        let number = self.reason.code();
        let place = self.place;
        let reason = self.reason;
        write!(f, "fault {number} at {place}: {reason}")
    }
}

impl Error for TapeFault {}

impl fmt::Display for WriteFault {
    ghost output = { λ e. Some (refusal_text e) };

    fn fmt<W: fmt::Write>(&self, f: &mut fmt::Formatter<W>) -> fmt::Result {
        f.write_str(match self {
            WriteFault::AreaTooShort => "area too short",
        })
    }
}

impl Error for WriteFault {}

impl Layer {
    // The number that names the layer in an answer.
    pub fn code(self) -> u8
        ensures { result ≡ layer_number self }
    {
        self as u8
    }
}

impl From<TapeFault> for Fault {
    ghost from_gives = { λ e r. r ≡ told_tape e };

    fn from(e: TapeFault) -> Fault {
        Fault {
            layer: Layer::Tape,
            number: e.reason.code(),
            place: e.place,
            link: 0,
        }
    }
}

impl From<WriteFault> for Fault {
    ghost from_gives = { λ e r. r ≡ told_writing e };

    fn from(e: WriteFault) -> Fault {
        match e {
            WriteFault::AreaTooShort => Fault {
                layer: Layer::Tape,
                number: 1,
                place: 0,
                link: 0,
            },
        }
    }
}
