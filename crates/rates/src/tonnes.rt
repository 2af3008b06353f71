// Tonnes: how much a lane or a trip can carry, or unlimited. None is 0 tonnes.
ghost use Rattle.std.specs.Prelude.{◌≡◌, Some, refl};
ghost use Rattle.rates.specs.Loads.{Load, tonnes_kind};
ghost use Rattle.rates.specs.Meanings.{load_of};
ghost use Rattle.rates.specs.LoadLaws.{tonnes_laws};
ghost use Rattle.rates.specs.Texts.{tonnes_text};

use crate::capped::Capped;
use crate::kind::Rate;
use std::fmt;

#[derive(Clone, Copy, Debug)]
pub enum Tonnes {
    UpTo(Capped),
    Unlimited,
}

impl Rate for Tonnes {
    const L: u64 = 0;

    ghost L = { 0 };

    ghost Member = { Load };

    ghost kind = { tonnes_kind };

    ghost means = { load_of };

    ghost laws = { tonnes_laws };

    ghost limited = { refl };

    fn still() -> Tonnes {
        Tonnes::Unlimited
    }

    fn none() -> Tonnes {
        Tonnes::UpTo(Capped::zero())
    }

    fn join(self, other: Tonnes) -> Tonnes {
        if other.better(self) { self } else { other }
    }

    fn better(self, other: Tonnes) -> bool {
        match other {
            Tonnes::Unlimited => false,
            Tonnes::UpTo(b) => match self {
                Tonnes::Unlimited => true,
                Tonnes::UpTo(a) => b.tonnes() < a.tonnes(),
            },
        }
    }

    fn is_lane_rate(self) -> bool {
        match self {
            Tonnes::UpTo(a) => a.tonnes() > 0,
            Tonnes::Unlimited => false,
        }
    }
}

impl fmt::Display for Tonnes {
    ghost output = { λ rate. Some (tonnes_text rate) };

    fn fmt<W: fmt::Write>(&self, f: &mut fmt::Formatter<W>) -> fmt::Result {
        match self {
            Tonnes::Unlimited => write!(f, "unlimited"),
            Tonnes::UpTo(capped) => write!(f, "{}", capped.tonnes()),
        }
    }
}
