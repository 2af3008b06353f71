// A pair of rates, the first before the second: none, or a rate of each kind other than none.
ghost use Rattle.std.specs.Prelude.{◌≡◌, refl, Decides};
ghost use Rattle.rates.specs.Pairs.{Couple, couple_of, pair_kind};
ghost use Rattle.rates.specs.Pairs.Couple.{no_couple};
ghost use Rattle.rates.specs.PairLaws.{pair_laws};
ghost use Rattle.rates.specs.Texts.{joined_texts};

use crate::kind::{Rate, Strict};
use crate::many::is_none;
use std::fmt;

// A pair one of whose parts is none means none.
#[derive(Clone, Copy, Debug)]
pub struct Pair<P, Q> {
    pub first: P,
    pub second: Q,
}

// Whether a pair means none.
fn lacks_part<P: Rate, Q: Rate>(pair: Pair<P, Q>) -> bool
    ensures { Decides result (couple_of P.Rate.kind Q.Rate.kind (P.Rate.means pair.first) (Q.Rate.means pair.second) ≡ no_couple) }
{
    is_none(pair.first) || is_none(pair.second)
}

impl<P: Strict, Q: Rate> Rate for Pair<P, Q> {
    const L: u64 = 1_000_000_000;

    ghost L = { 1000000000 };

    ghost Member = { Couple P.Rate.kind Q.Rate.kind };

    ghost kind = { pair_kind P.Rate.kind Q.Rate.kind };

    ghost means = { λ s. couple_of P.Rate.kind Q.Rate.kind (P.Rate.means s.first) (Q.Rate.means s.second) };

    ghost laws = { pair_laws P.Rate.kind Q.Rate.kind P.Rate.laws Q.Rate.laws P.Strict.strictness };

    ghost limited = { refl };

    fn still() -> Pair<P, Q> {
        Pair {
            first: P::still(),
            second: Q::still(),
        }
    }

    fn none() -> Pair<P, Q> {
        Pair {
            first: P::none(),
            second: Q::none(),
        }
    }

    fn join(self, other: Pair<P, Q>) -> Pair<P, Q> {
        if lacks_part(self) {
            return self;
        }
        if lacks_part(other) {
            return other;
        }
        Pair {
            first: self.first.join(other.first),
            second: self.second.join(other.second),
        }
    }

    fn better(self, other: Pair<P, Q>) -> bool {
        if lacks_part(self) {
            return false;
        }
        if lacks_part(other) || self.first.better(other.first) {
            return true;
        }
        !other.first.better(self.first) && self.second.better(other.second)
    }

    fn is_lane_rate(self) -> bool {
        self.first.is_lane_rate() && self.second.is_lane_rate()
    }
}

impl<P: fmt::Display, Q: fmt::Display> fmt::Display for Pair<P, Q> {
    ghost output = { λ pair. joined_texts (P.output pair.first) (Q.output pair.second) };

    fn fmt<W: fmt::Write>(&self, f: &mut fmt::Formatter<W>) -> fmt::Result {
        let first = &self.first;
        let second = &self.second;
        write!(f, "{first}, {second}")
    }
}
