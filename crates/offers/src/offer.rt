// An offered trip, by the rates of its lanes, and its price.
ghost use Rattle.std.specs.Prelude.{map, Some};
ghost use Rattle.offers.specs.Offers.{Found, Priced, refusal_text};

use rates::kind::Rate;
use rates::many::join_all;
use std::error::Error;
use std::fmt;

// The most lanes of an offered trip: over 4,096 terminals no trip that passes none twice has more.
pub const MOST_LANES: usize = 4095;

// Why an offered trip has no price.
#[derive(Clone, Copy, Debug, PartialEq, Eq)]
pub enum Refusal {
    Empty,
    TooMany,
    // The place of the first rate that no lane may have, counted from 0.
    NoLaneRate(usize),
}

impl fmt::Display for Refusal {
    ghost output = { λ refusal. Some (refusal_text refusal) };

    fn fmt<W: fmt::Write>(&self, f: &mut fmt::Formatter<W>) -> fmt::Result {
        match self {
            Refusal::Empty => write!(f, "no lanes: a trip has one at least"),
            Refusal::TooMany => write!(f, "too many lanes: a trip has 4095 at most"),
            Refusal::NoLaneRate(place) => {
                let lane = place.saturating_add(1);
                write!(f, "no lane rate of this kind at lane {lane}")
            }
        }
    }
}

impl Error for Refusal {}

// The place of the first rate that no lane may have.
fn first_no_lane_rate<R: Rate>(lanes: &[R]) -> Option<usize>
    ensures { Found R.kind (map R.means lanes.now) result }
{
    lanes.iter().position(|rate| !rate.is_lane_rate())
}

// The rate of a trip over these lanes: their rates joined.
pub fn price<R: Rate>(lanes: &[R]) -> Result<R, Refusal>
    ensures { Priced R.kind R.means (map R.means lanes.now) result }
{
    if lanes.is_empty() {
        return Err(Refusal::Empty);
    }
    if lanes.len() > MOST_LANES {
        return Err(Refusal::TooMany);
    }
    match first_no_lane_rate(lanes) {
        Some(i) => Err(Refusal::NoLaneRate(i)),
        None => Ok(join_all(lanes)),
    }
}
