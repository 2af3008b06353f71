// Functions over several rates of any kind.
ghost use Rattle.std.specs.Prelude.{◌≡◌, ℕ, ◌<◌, ◌≤◌, map, length, Decides, MatchOption};
ghost use Rattle.rates.specs.Kinds.{exact_size};
ghost use Rattle.rates.specs.Many.{better_of, joined_all, sizes, BestOf, FirstBest};

use crate::kind::Rate;

// Whether a rate is none.
pub fn is_none<R: Rate>(rate: R) -> bool
    ensures { Decides result (R.means rate ≡ R.kind.none) }
{
    !rate.better(R::none())
}

// Whether two rates are the same member.
pub fn same<R: Rate>(one: R, other: R) -> bool
    ensures { Decides result (R.means one ≡ R.means other) }
{
    !(one.better(other) | other.better(one))
}

// The better of two rates, the first where neither is better.
pub fn better_of_two<R: Rate>(one: R, other: R) -> R
    ensures { R.means result ≡ better_of R.kind (R.means one) (R.means other) }
{
    if other.better(one) { other } else { one }
}

// All rates of a slice joined in order: still where there are none of them.
pub fn join_all<R: Rate>(rates: &[R]) -> R
    ensures { sizes R.kind (map R.means rates.now) ≤ exact_size → R.means result ≡ joined_all R.kind (map R.means rates.now) }
{
    let mut all = R::still();
    for rate in rates {
        all = all.join(*rate);
    }
    all
}

// The best of a slice: none where it is empty.
pub fn best_of_all<R: Rate>(rates: &[R]) -> R
    ensures { BestOf R.kind (map R.means rates.now) (R.means result) }
{
    let mut best = R::none();
    for rate in rates {
        best = better_of_two(best, *rate);
    }
    best
}

// The place of the best of a slice, the first of equals: nothing where it is empty.
pub fn best_place<R: Rate>(rates: &[R]) -> Option<usize>
    ensures { MatchOption result (length rates.now ≡ 0) (FirstBest R.kind (map R.means rates.now) (length rates.now)) }
{
    let mut best = *rates.first()?;
    let mut place = 0;
    for (i, rate) in rates.iter().enumerate() {
        if rate.better(best) {
            best = *rate;
            place = i;
        }
    }
    Some(place)
}
