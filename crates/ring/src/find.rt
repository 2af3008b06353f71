// Finding a side by its ends.
ghost use Rattle.std.specs.Prelude.{◌≡◌, ◌<◌, ◌≤◌, min, length, Decides};
ghost use Rattle.triangulation.specs.Trees.{Before, side_count};
ghost use Rattle.ring.specs.Areas.{Finds, Splits};
ghost use Rattle.ring.specs.Faults.{most};

use crate::{Link, MOST_TERMINALS, Side};

// The number of sides of a filled ring of `n` terminals; above the most terminals, that of the most.
pub fn side_count(n: usize) -> usize
    ensures { result ≡ side_count (min n most) }
{
    (2 * n.min(MOST_TERMINALS)).saturating_sub(3)
}

// Whether the side comes before the side from `low` to `high` in preorder.
fn comes_before(side: Side, low: u16, high: u16) -> bool
    ensures { Decides result (Before side.low side.high low high) }
{
    (side.low < low) | ((side.low == low) & (high < side.high))
}

// A place among the first `count` at which the sides stop coming before the one from `low` to `high`, by halving. No
// `binary_search_by`: it tests other places, so it answers otherwise where the sides are not sorted or stand twice.
fn first_not_before(sides: &[Side], count: usize, low: u16, high: u16) -> usize
    requires { count ≤ length sides.now }
    ensures { Splits sides.now count low high result }
{
    let mut start = 0;
    let mut end = count;
    while start < end {
        let middle = start + (end - start) / 2;
        if comes_before(sides[middle], low, high) {
            start = middle + 1;
        } else {
            end = middle;
        }
    }
    start
}

// The place of the side with the ends `a` and `b`, in either order, in the side area of a ring of `n` terminals.
pub fn find_side(n: usize, sides: &[Side], a: u16, b: u16) -> Option<usize>
    ensures { Finds n sides.now a b result }
{
    let ends = Link { from: a, to: b };
    let low = ends.low();
    let high = ends.high();
    let count = side_count(n).min(sides.len());
    let place = first_not_before(sides, count, low, high);
    if place < count {
        let side = sides[place];
        if (side.low == low) & (side.high == high) {
            return Some(place);
        }
    }
    None
}
