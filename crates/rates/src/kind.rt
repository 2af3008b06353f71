// A kind of rate: an ordered monoid with a least desirable element `none` that absorbs, and a size that bounds its joins.
ghost use Rattle.std.specs.Prelude.{◌≡◌, ℕ, ◌+◌, ◌≤◌};
ghost use Rattle.rates.specs.Kinds.{Kind, Laws, Strictness, exact_size};

pub trait Rate: Copy {
    // The size that no lane rate exceeds.
    const L: u64;

    ghost L: { ℕ };

    // The set that values stand for.
    ghost Member: { Type 0 };

    ghost kind: { Kind Member };

    ghost means: { Self → Member };

    // The rate of staying put, the unit of joining.
    fn still() -> Self
        ensures { means result ≡ kind.still };

    // No rate at all.
    fn none() -> Self
        ensures { means result ≡ kind.none };

    // The rate of one part of a trip and then another. Exact while the sizes are small enough, and otherwise any value.
    fn join(self, other: Self) -> Self
        ensures { kind.size (means self) + kind.size (means other) ≤ exact_size → means result ≡ kind.join (means self) (means other) };

    // Whether this rate is better than the other.
    fn better(self, other: Self) -> bool
        ensures { result ≡ kind.better (means self) (means other) };

    // Whether a single lane may have this rate.
    fn is_lane_rate(self) -> bool
        ensures { result ≡ kind.lane (means self) };

    ghost laws: { Laws kind };

    // The constant is the kind's bound on the sizes of lane rates.
    ghost limited: { L ≡ kind.limit };
}

// A kind whose joins keep a strict order strict, so that it can come first in a pair.
pub trait Strict: Rate {
    ghost strictness: { Strictness Self.Rate.kind };
}
