// A part of a piece of one triangle: its stops.
ghost use Rattle.std.specs.Prelude.{◌≡◌};
ghost use Rattle.piece_rates.specs.Leaves.{LanesWithin};
ghost use Rattle.sheets.specs.Triangles.{triangle_lanes};
ghost use Rattle.routing.specs.Passes.{PassedAll, stops_within};

use crate::waiting::RoutePart;
use rates::kind::Rate;
use sheets::Triangle;
use stops::Stops;

// Passes the end of the part, by the third corner where that is better than the lane.
pub(crate) fn pass_triangle<R: Rate>(t: Triangle<R>, part: RoutePart, stops: &mut Stops<'_>)
    ensures passed { LanesWithin R.kind (triangle_lanes R.kind R.means t) → PassedAll stops.old (stops_within R.kind R.means t part.from part.to) stops.new }
    ensures held { stops.new.places.ghost_name ≡ stops.old.places.ghost_name }
{
    let third = t.other_corner(part.from, part.to);
    let round = t.lane(part.from, third).join(t.lane(third, part.to));
    if round.better(t.lane(part.from, part.to)) {
        stops.pass(third);
    }
    stops.pass(part.to);
}
