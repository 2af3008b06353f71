// The sheet of a piece of one triangle, from its lanes.
ghost use Rattle.std.specs.Prelude.{◌≡◌, ℕ, ◌+◌, ◌*◌, ◌/◌, ◌%◌, ◌<◌, ◌≤◌, true, ◌==◌, cond, ◌&&◌, List, map, length, drop};
ghost use Rattle.trips.specs.Trips.{LaneMap};
ghost use Rattle.records.specs.Few.{listed};
ghost use Rattle.pieces.specs.Sides.{Ends, ends_of};
ghost use Rattle.piece_rates.specs.Leaves.{along, LanesWithin, LeafStands, rate_if};
ghost use Rattle.piece_rates.specs.Sheets.{SheetShows};
ghost use Rattle.piece_rates.specs.Triangles.{third_corner};
ghost use Rattle.sheets.specs.Triangles.{IsTriangleOn, triangle_best, triangle_lanes, triangle_place};

use crate::cells::{ROW, SHEET, better_joined, rate_at, write_each};
use holders::side_at;
use rates::kind::Rate;
use records::{Few, Piece};
use ring::Side;

// The rates of a side's two lanes, from its low end to its high end and back.
#[derive(Clone, Copy)]
pub struct Both<R> {
    pub up: R,
    pub down: R,
}

// A triangle's corners, and the lanes that belong to it.
#[derive(Clone, Copy)]
pub struct Triangle<R> {
    pub low: u16,
    pub third: u16,
    pub high: u16,
    pub left: Both<R>,
    pub right: Both<R>,
    pub base: Both<R>,
}

impl<R: Rate> Both<R> {
    // The lanes of a side.
    fn of(lanes: &[R], side: u32) -> Both<R>
        ensures up { R.means result.up ≡ rate_if R.kind true (map R.means lanes.now) (2 * side) }
        ensures down { R.means result.down ≡ rate_if R.kind true (map R.means lanes.now) (2 * side + 1) }
    {
        Both {
            up: rate_at(lanes, 2 * side as usize),
            down: rate_at(lanes, 2 * side as usize + 1),
        }
    }

    // The lanes of a side of this length that belong to a triangle on another side: those of length 1, and else none.
    fn of_short(lanes: &[R], side: u32, length: u16) -> Both<R>
        ensures up { R.means result.up ≡ rate_if R.kind (length == 1) (map R.means lanes.now) (2 * side) }
        ensures down { R.means result.down ≡ rate_if R.kind (length == 1) (map R.means lanes.now) (2 * side + 1) }
    {
        if length == 1 {
            Both::of(lanes, side)
        } else {
            Both {
                up: R::none(),
                down: R::none(),
            }
        }
    }
}

// The rate from u to v along the side from a to b, or else another.
fn rate_along<R: Rate>(a: u16, b: u16, both: Both<R>, u: u16, v: u16, others: R) -> R
    ensures { R.means result ≡ along R.kind a b (R.means both.up) (R.means both.down) u v (R.means others) }
{
    if (u == a) & (v == b) {
        both.up
    } else if (u == b) & (v == a) {
        both.down
    } else {
        others
    }
}

impl<R: Rate> Triangle<R> {
    // The triangle on a base. The lanes of its other two sides belong to it where they have length 1.
    pub fn on(sides: &[Side], lanes: &[R], base: u16) -> Triangle<R>
        ensures { IsTriangleOn R.kind R.means (ends_of sides.now) base (map R.means lanes.now) result }
    {
        let top = side_at(sides, base as u32);
        let left = side_at(sides, base as u32 + 1);
        let length = left.high.saturating_sub(left.low);
        let place = base as u32 + 2 * length as u32;
        let right = side_at(sides, place);
        Triangle {
            low: top.low,
            third: left.high,
            high: top.high,
            left: Both::of_short(lanes, base as u32 + 1, length),
            right: Both::of_short(lanes, place, right.high.saturating_sub(right.low)),
            base: Both::of(lanes, base as u32),
        }
    }

    // The rate of its lane from u to v.
    pub fn lane(self, u: u16, v: u16) -> R
        ensures { R.means result ≡ triangle_lanes R.kind R.means self u v }
    {
        let base = rate_along(self.low, self.high, self.base, u, v, R::none());
        let right = rate_along(self.third, self.high, self.right, u, v, base);
        rate_along(self.low, self.third, self.left, u, v, right)
    }

    // Its first corner that is neither u nor v.
    pub fn other_corner(self, u: u16, v: u16) -> u16
        ensures { result ≡ third_corner self.low self.third self.high u v }
    {
        if (self.low != u) & (self.low != v) {
            self.low
        } else if (self.third != u) & (self.third != v) {
            self.third
        } else {
            self.high
        }
    }

    // The best rate from u to v within it.
    pub fn best(self, u: u16, v: u16) -> R
        ensures { LanesWithin R.kind (triangle_lanes R.kind R.means self) → R.means result ≡ triangle_best R.kind R.means self u v }
    {
        if u == v {
            return R::still();
        }
        let third = self.other_corner(u, v);
        better_joined(self.lane(u, v), self.lane(u, third), self.lane(third, v))
    }
}

// The place k of the sheet: none at an unused one.
fn leaf_at<R: Rate>(t: Triangle<R>, edges: Few, count: usize, k: usize) -> R
    requires { count ≡ length (listed edges) }
    ensures { LanesWithin R.kind (triangle_lanes R.kind R.means t) → R.means result ≡ triangle_place R.kind R.means t (listed edges) k }
{
    if (k / ROW < count) & (k % ROW < count) {
        t.best(edges.get(k / ROW), edges.get(k % ROW))
    } else {
        R::none()
    }
}

// Writes the sheet of a piece of one triangle from the lane area. Nothing is written where the sheet is shorter than 64 rates.
pub fn write_leaf<R: Rate>(sides: &[Side], lanes: &[R], piece: Piece, sheet: &mut [R])
    ensures shows { (n : ℕ) (m : LaneMap R.Member) → 64 ≤ length sheet.old → LeafStands R.kind n (ends_of sides.now) m piece (map R.means lanes.now) → SheetShows R.kind n (ends_of sides.now) piece m (map R.means sheet.new) }
    ensures kept { drop 64 sheet.new ≡ drop 64 sheet.old }
    ensures short { length sheet.old < 64 → sheet.new ≡ sheet.old }
{
    if sheet.len() < SHEET {
        return;
    }
    let t = Triangle::on(sides, lanes, piece.top);
    let count = piece.edges.len();
    write_each(&mut sheet[..SHEET], |k| leaf_at(t, piece.edges, count, k));
}
