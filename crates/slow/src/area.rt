// The places of an area of n rows of n places.
ghost use Rattle.std.specs.Prelude.{◌≡◌, ◌+◌, ◌*◌, MatchResult};
ghost use Rattle.slow.specs.Areas.{Few, InArea, CountRefused, PairRefused};

use crate::best::{Ends, MOST_TERMINALS};
use crate::refusal::Refusal;

// How many places an area for n terminals has.
pub(crate) fn place_count(n: usize) -> Result<usize, Refusal>
    ensures { MatchResult result (λ count. Few n × (count ≡ n * n)) (CountRefused n) }
{
    if n == 0 {
        return Err(Refusal::NoTerminals);
    }
    if n > MOST_TERMINALS {
        return Err(Refusal::TooManyTerminals);
    }
    Ok(n * n)
}

// The place for two terminals in an area of so many places.
pub(crate) fn place_of(n: usize, places: usize, ends: Ends) -> Result<usize, Refusal>
    ensures { MatchResult result (λ place. InArea n places ends.from ends.to × (place ≡ n * ends.from + ends.to)) (PairRefused n places ends.from ends.to) }
{
    if places != place_count(n)? {
        return Err(Refusal::WrongLength);
    }
    if ends.from >= n || ends.to >= n {
        return Err(Refusal::NoTerminal);
    }
    Ok(n * ends.from + ends.to)
}
