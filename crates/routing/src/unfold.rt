// The unfolding: parts are taken off the list, split or passed, until none waits.
ghost use Rattle.std.specs.Prelude.{◌≡◌, ℕ, ◌+◌, ◌-◌, ◌*◌, ◌<◌, ◌≤◌, min, ◌∷◌, length, ◌≢◌, IsOk, IsOkAnd};
ghost use Rattle.trips.specs.Trips.{BestRate, LaneMap};
ghost use Rattle.quoting.specs.Areas.{PlanInOrder};
ghost use Rattle.routing.specs.Splits.{RatedPlan};
ghost use Rattle.routing.specs.Turns.{TripUnderWay, TripWritten};
ghost use Rattle.routing.specs.Waiting.{part_of, parts_on, room_on};

use crate::split::split;
use crate::triangle::pass_triangle;
use crate::waiting::{RoutePart, put, put_all};
use quoting::{Areas, Seam};
use rates::kind::Rate;
use sheets::Triangle;
use stack::{Full, Stack};
use stops::Stops;

// The most turns that unfolding takes: five for each of the 2n - 5 pieces of a plan of n terminals, of which there are at most 4,096.
fn most_turns(n: usize) -> usize
    ensures { result ≡ 5 * (2 * min n 4096 - 5) }
{
    5 * (2 * n.min(4096)).saturating_sub(5)
}

// One turn: the stops of a part of a triangle are passed, a part of a cut piece is split and its parts wait in its place.
fn unfold_next<R: Rate>(
    areas: Areas<'_, R>,
    part: RoutePart,
    todo: &mut Stack<'_, RoutePart>,
    stops: &mut Stops<'_>,
) -> Result<(), Full>
    ensures turn { (plan : RatedPlan R.kind R.means areas.entry) (s t : ℕ) (r : R.Member) (left : ℕ) → s < plan.n → 84 ≤ room_on todo.old → TripUnderWay plan s t r (left + 1) (part_of part ∷ parts_on todo.old) stops.old → IsOk result × TripUnderWay plan s t r left (parts_on todo.new) stops.new }
    ensures same_room { room_on todo.new ≡ room_on todo.old }
    ensures todo_held { todo.new.items.ghost_name ≡ todo.old.items.ghost_name }
    ensures stops_held { stops.new.places.ghost_name ≡ stops.old.places.ghost_name }
{
    let piece = areas.records.piece(part.piece);
    if piece.is_single() {
        let t = Triangle::on(areas.records.sides, areas.lanes, piece.top);
        pass_triangle(t, part, stops);
        return Ok(());
    }
    let parts = split(areas, Seam::of(areas.records, piece), part);
    put_all(todo, parts)
}

// Writes the stops of a best trip, and says how many they are. The turns are counted, so that it ends on any areas.
pub(crate) fn unfold_all<R: Rate>(
    areas: Areas<'_, R>,
    todo: &mut [RoutePart],
    from: u16,
    to: u16,
    stops: &mut [u16],
) -> Result<usize, Full>
    ensures { (n : ℕ) (m : LaneMap R.Member) (r : R.Member) → areas.entry.n ≡ n → PlanInOrder R.kind R.means areas.entry n m → from < n → to < n → 84 ≤ length todo.old → n ≤ length stops.old → BestRate R.kind m from to r → (r ≢ R.kind.none) → IsOkAnd result (TripWritten R.kind m from to r stops.new) }
{
    let mut list = Stack::new(todo);
    let mut passed = Stops::new(stops, 0);
    passed.pass(from);
    put(&mut list, RoutePart { piece: 0, from, to })?;
    for _ in 0..most_turns(areas.n) {
        let Some(part) = list.pop() else {
            return Ok(passed.count());
        };
        unfold_next(areas, part, &mut list, &mut passed)?;
    }
    Ok(passed.count())
}
