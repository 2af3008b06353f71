// Cents: a whole number, negative for a credit, or none.
ghost use Rattle.std.specs.Prelude.{◌≡◌, Some, refl, ℕ, ◌+◌, ◌≤◌};
ghost use Rattle.rates.specs.Kinds.{exact_size};
ghost use Rattle.rates.specs.Amounts.{Amount, cents_kind, held};
ghost use Rattle.rates.specs.Meanings.{amount_of};
ghost use Rattle.rates.specs.AmountLaws.{cents_laws, cents_strict};
ghost use Rattle.rates.specs.Texts.{cents_text};

use crate::kind::{Rate, Strict};
use std::fmt;

// Not an Option: `Cents::Whole(5)` says what the number is, and no method of Option joins or compares rates as cents do.
#[derive(Clone, Copy, Debug)]
pub enum Cents {
    None,
    Whole(i64),
}

impl Rate for Cents {
    const L: u64 = 1_000_000_000;

    ghost L = { 1000000000 };

    ghost Member = { Amount };

    ghost kind = { cents_kind };

    ghost means = { amount_of };

    ghost laws = { cents_laws };

    ghost limited = { refl };

    fn still() -> Cents {
        Self::Whole(0)
    }

    fn none() -> Cents {
        Self::None
    }

    fn join(self, other: Cents) -> Cents
        ensures exact { cents_kind.size (amount_of self) + cents_kind.size (amount_of other) ≤ exact_size → amount_of result ≡ cents_kind.join (amount_of self) (amount_of other) }
        ensures always { amount_of result ≡ held (cents_kind.join (amount_of self) (amount_of other)) }
    {
        match (self, other) {
            (Cents::Whole(a), Cents::Whole(b)) => Cents::Whole(a.saturating_add(b)),
            _ => Cents::None,
        }
    }

    fn better(self, other: Cents) -> bool {
        match (self, other) {
            (Cents::None, _) => false,
            (Cents::Whole(_), Cents::None) => true,
            (Cents::Whole(a), Cents::Whole(b)) => a < b,
        }
    }

    fn is_lane_rate(self) -> bool {
        match self {
            Cents::None => false,
            Cents::Whole(a) => -1_000_000_000 <= a && a <= 1_000_000_000,
        }
    }
}

impl Strict for Cents {
    ghost strictness = { cents_strict };
}

impl fmt::Display for Cents {
    ghost output = { λ rate. Some (cents_text rate) };

    fn fmt<W: fmt::Write>(&self, f: &mut fmt::Formatter<W>) -> fmt::Result {
        match self {
            Cents::None => write!(f, "none"),
            Cents::Whole(number) => write!(f, "{number}"),
        }
    }
}
