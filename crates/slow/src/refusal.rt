// Why a question about a network is refused.
ghost use Rattle.std.specs.Prelude.{Some};
ghost use Rattle.slow.specs.Refusals.{refusal_text};

use std::error::Error;
use std::fmt;

#[derive(Clone, Copy, Debug, PartialEq, Eq)]
pub enum Refusal {
    NoTerminals,
    TooManyTerminals,
    // An area is not n rows of n places.
    WrongLength,
    // The first place of the lanes that holds neither none nor a lane rate.
    NoRate(usize),
    // A terminal that is not below n.
    NoTerminal,
    // A rate that no lane may have.
    NoLaneRate,
}

impl fmt::Display for Refusal {
    ghost output = { λ why. Some (refusal_text why) };

    fn fmt<W: fmt::Write>(&self, f: &mut fmt::Formatter<W>) -> fmt::Result {
        f.write_str(match self {
            Refusal::NoTerminals => "no terminals",
            Refusal::TooManyTerminals => "too many terminals: 64 at most",
            Refusal::WrongLength => "an area of the wrong length",
            Refusal::NoRate(_) => "a place that holds no rate",
            Refusal::NoTerminal => "no such terminal",
            Refusal::NoLaneRate => "no lane rate of this kind",
        })
    }
}

impl Error for Refusal {}
