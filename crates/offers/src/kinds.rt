// The kinds of rate by their names in texts.
ghost use Rattle.std.specs.Prelude.{Some, codes};
ghost use Rattle.offers.specs.KindNames.{name_of, Names};

use std::error::Error;
use std::fmt;
use std::str::FromStr;

#[derive(Clone, Copy, Debug, PartialEq, Eq)]
pub enum KindName {
    Cents,
    Tonnes,
    CentsBeforeTonnes,
}

impl fmt::Display for KindName {
    ghost output = { λ kind. Some (name_of kind) };

    fn fmt<W: fmt::Write>(&self, f: &mut fmt::Formatter<W>) -> fmt::Result {
        f.write_str(match self {
            KindName::Cents => "cents",
            KindName::Tonnes => "tonnes",
            KindName::CentsBeforeTonnes => "cents before tonnes",
        })
    }
}

// The text is no kind's name.
#[derive(Clone, Copy, Debug, PartialEq, Eq)]
pub struct UnknownKind;

impl fmt::Display for UnknownKind {
    ghost output = { λ _. Some (codes "no kind of rate has this name") };

    fn fmt<W: fmt::Write>(&self, f: &mut fmt::Formatter<W>) -> fmt::Result {
        write!(f, "no kind of rate has this name")
    }
}

impl Error for UnknownKind {}

impl FromStr for KindName {
    type Err = UnknownKind;

    ghost from_str_gives = { Names };

    fn from_str(text: &str) -> Result<KindName, UnknownKind> {
        match text {
            "cents" => Ok(KindName::Cents),
            "tonnes" => Ok(KindName::Tonnes),
            "cents before tonnes" => Ok(KindName::CentsBeforeTonnes),
            _ => Err(UnknownKind),
        }
    }
}
