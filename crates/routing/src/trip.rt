// The search for a best trip.
ghost use Rattle.std.specs.Prelude.{◌≡◌, ℕ, ◌<◌, ◌≤◌, ◌↔◌, length, drop, IsErrOf, IsOkAnd};
ghost use Rattle.trips.specs.Trips.{LaneMap};
ghost use Rattle.quoting.specs.Areas.{PlanInOrder};
ghost use Rattle.routing.specs.Answers.{Answer};

use crate::unfold::unfold_all;
use crate::waiting::RoutePart;
use quoting::{Areas, best_rate};
use rates::kind::Rate;
use rates::many::is_none;
use stack::Full;

// How many parts of a trip may wait to be unfolded. At most 84 ever do.
pub const TODO_PARTS: usize = 512;

// A trip that was found: how many its stops are, both ends included, and its rate.
#[derive(Clone, Copy)]
pub struct Route<R> {
    pub stops: usize,
    pub rate: R,
}

// Where room was short: for the stops of a trip through all terminals, or for the parts that wait.
#[derive(Clone, Copy, Debug, PartialEq, Eq)]
pub enum NoRoom {
    ForStops,
    ForParts,
}

impl From<Full> for NoRoom {
    ghost use Rattle.routing.specs.declared.trip.NoRoom.TheVariants.{ForParts};

    ghost from_gives = { λ _ e. e ≡ ForParts };

    fn from(_full: Full) -> NoRoom {
        NoRoom::ForParts
    }
}

// Writes the stops of a best trip from one terminal to another, both ends included and none twice, into the first n places of
// `stops`. The rest of the n places is free afterwards, and so is the to-do area. Where there is no room for n stops, nothing is
// written.
pub fn best_trip<R: Rate>(
    areas: Areas<'_, R>,
    todo: &mut [RoutePart],
    from: u16,
    to: u16,
    stops: &mut [u16],
) -> Result<Option<Route<R>>, NoRoom>
    ensures found { (n : ℕ) (m : LaneMap R.Member) → areas.entry.n ≡ n → PlanInOrder R.kind R.means areas.entry n m → from < n → to < n → 512 ≤ length todo.old → n ≤ length stops.old → IsOkAnd result (Answer R.kind R.means m from to stops.new) }
    ensures kept { drop areas.entry.n stops.new ≡ drop areas.entry.n stops.old }
    ensures short { IsErrOf result NoRoom.ForStops ↔ (length stops.old < areas.entry.n) }
    ensures unwritten { length stops.old < areas.entry.n → stops.new ≡ stops.old }
{
    if stops.len() < areas.n {
        return Err(NoRoom::ForStops);
    }
    let rate = best_rate(areas, from, to);
    if is_none(rate) {
        return Ok(None);
    }
    let count = unfold_all(areas, todo, from, to, &mut stops[..areas.n])?;
    Ok(Some(Route { stops: count, rate }))
}
