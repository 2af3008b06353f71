// The kinds of record, their bytes and the lengths of their bodies.
ghost use Rattle.std.specs.Prelude.{◌≡◌, Some, codes};
ghost use Rattle.tape.specs.Kinds.{kind_byte, kind_name, body_length, KindOf, Decodes, Named};

use std::error::Error;
use std::fmt;
use std::str::FromStr;

// A kind of record, each with its byte. Head, Link and PlanEnd describe a plan; Post, Shut, Try,
// Keep and Withdraw change its rates; Quote and Route ask for them.
#[derive(Clone, Copy, Debug, PartialEq, Eq)]
pub enum Kind {
    Head = 1,
    Link = 2,
    PlanEnd = 3,
    Post = 4,
    Shut = 5,
    Try = 6,
    Keep = 7,
    Withdraw = 8,
    Quote = 9,
    Route = 10,
}

// A byte or a name that no kind has.
#[derive(Clone, Copy, Debug, PartialEq, Eq)]
pub struct NoKind;

impl fmt::Display for NoKind {
    ghost output = { λ _. Some (codes "no kind of record") };

    fn fmt<W: fmt::Write>(&self, f: &mut fmt::Formatter<W>) -> fmt::Result {
        f.write_str("no kind of record")
    }
}

impl Error for NoKind {}

// The numbers once more, since nothing leads from a number back to its variant.
impl TryFrom<u8> for Kind {
    type Error = NoKind;

    ghost try_from_gives = { Decodes };

    fn try_from(b: u8) -> Result<Kind, NoKind> {
        match b {
            1 => Ok(Kind::Head),
            2 => Ok(Kind::Link),
            3 => Ok(Kind::PlanEnd),
            4 => Ok(Kind::Post),
            5 => Ok(Kind::Shut),
            6 => Ok(Kind::Try),
            7 => Ok(Kind::Keep),
            8 => Ok(Kind::Withdraw),
            9 => Ok(Kind::Quote),
            10 => Ok(Kind::Route),
            _ => Err(NoKind),
        }
    }
}

impl From<Kind> for u8 {
    ghost from_gives = { λ kind b. b ≡ kind_byte kind };

    fn from(kind: Kind) -> u8 {
        kind as u8
    }
}

// The kind's name.
impl fmt::Display for Kind {
    ghost output = { λ kind. Some (kind_name kind) };

    fn fmt<W: fmt::Write>(&self, f: &mut fmt::Formatter<W>) -> fmt::Result {
        f.write_str(self.name())
    }
}

// The kind of a name.
impl FromStr for Kind {
    type Err = NoKind;

    ghost from_str_gives = { Named };

    fn from_str(name: &str) -> Result<Kind, NoKind> {
        match name {
            "head" => Ok(Kind::Head),
            "link" => Ok(Kind::Link),
            "plan-end" => Ok(Kind::PlanEnd),
            "post" => Ok(Kind::Post),
            "shut" => Ok(Kind::Shut),
            "try" => Ok(Kind::Try),
            "keep" => Ok(Kind::Keep),
            "withdraw" => Ok(Kind::Withdraw),
            "quote" => Ok(Kind::Quote),
            "route" => Ok(Kind::Route),
            _ => Err(NoKind),
        }
    }
}

impl Kind {
    // The kind that a byte names, if any does: `try_from` for callers that need no error.
    pub fn of_byte(b: u8) -> Option<Kind>
        ensures { KindOf b result }
    {
        Kind::try_from(b).ok()
    }

    // The byte that stands for the kind.
    pub fn byte(self) -> u8
        ensures { result ≡ kind_byte self }
    {
        u8::from(self)
    }

    // The kind's name in texts.
    pub fn name(self) -> &'static str
        ensures { result.now ≡ kind_name self }
    {
        match self {
            Kind::Head => "head",
            Kind::Link => "link",
            Kind::PlanEnd => "plan-end",
            Kind::Post => "post",
            Kind::Shut => "shut",
            Kind::Try => "try",
            Kind::Keep => "keep",
            Kind::Withdraw => "withdraw",
            Kind::Quote => "quote",
            Kind::Route => "route",
        }
    }

    // The number of bytes in the body of a record of this kind: a table of the format, with an arm for each length.
    pub fn body_length(self) -> usize
        ensures { result ≡ body_length self }
    {
        match self {
            Kind::Head => 11,
            Kind::Link | Kind::Shut | Kind::Quote | Kind::Route => 4,
            Kind::Post | Kind::Try => 12,
            Kind::PlanEnd | Kind::Keep | Kind::Withdraw => 0,
        }
    }
}
