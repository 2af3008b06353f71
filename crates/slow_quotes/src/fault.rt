// Why an order is not carried out.
ghost use Rattle.std.specs.Prelude.{◌≡◌, Some};
ghost use Rattle.slow_quotes.specs.declared.fault.Fault.TheVariants.{Refused};
ghost use Rattle.slow_quotes.specs.Faults.{reason};

use slow::refusal::Refusal;
use std::error::Error;
use std::fmt;

#[derive(Clone, Copy, Debug, PartialEq, Eq)]
pub enum Fault {
    NoKind,
    NoOrder,
    SameTerminal,
    WouldEarn,
    Refused(Refusal),
}

impl From<Refusal> for Fault {
    ghost from_gives = { λ why fault. fault ≡ Refused why };

    fn from(e: Refusal) -> Fault {
        Fault::Refused(e)
    }
}

impl fmt::Display for Fault {
    ghost output = { λ fault. Some (reason fault) };

    fn fmt<W: fmt::Write>(&self, f: &mut fmt::Formatter<W>) -> fmt::Result {
        match self {
            Fault::NoKind => f.write_str("no kind of rate is named yet"),
            Fault::NoOrder => f.write_str("no order"),
            Fault::SameTerminal => f.write_str("a lane leads to another terminal"),
            Fault::WouldEarn => f.write_str("a closed trip would earn"),
            Fault::Refused(why) => write!(f, "{why}"),
        }
    }
}

impl Error for Fault {}
