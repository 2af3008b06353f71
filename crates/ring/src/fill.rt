// The fill of the ring polygon: its sides in preorder, by the links alone.
ghost use Rattle.std.specs.Prelude.{◌≡◌, ◌+◌, ◌<◌, ◌≤◌, List, [], ◌∷◌, length, MatchResult};
ghost use Rattle.triangulation.specs.Trees.{side, side_count};
ghost use Rattle.ring.specs.Areas.{AreaByPlace, Drawn, EqualPlansFillAlike, FilledWith, Fills, new_side, side_area};
ghost use Rattle.ring.specs.Faults.{Condition, fewest, First, FirstIn, most};
ghost use Rattle.ring.specs.Linked.{JoinsAreLinks};

use crate::checks::{check_areas, check_links, check_terminals};
use crate::find::{find_side, side_count};
use crate::scan::third_terminal;
use crate::{Area, Link, PlanFault, Side};

// The record of a side that is in no piece yet and not marked as a link.
fn new_side(low: u16, high: u16) -> Side
    ensures { result ≡ new_side [] (side low high) }
{
    Side {
        low,
        high,
        link: false,
        leaf: 0,
    }
}

// Writes the sides. Each side writes its two children: the left one at the next place, the right one past the left one's places.
fn write_sides(n: usize, links: &[Link], sides: &mut [Side])
    requires enough { fewest ≤ n }
    requires few { n ≤ most }
    requires room { side_count n ≤ length sides.old }
    ensures { FilledWith n links.now [] sides.old sides.new }
{
    sides[0] = new_side(0, (n - 1) as u16);
    // By index, since each turn reads the place i and writes two later ones.
    for i in 0..2 * n - 3 {
        let low = sides[i].low;
        let high = sides[i].high;
        if low + 1 < high {
            let third = third_terminal(links, low, high);
            sides[i + 1] = new_side(low, third);
            sides[i + 2 * (third - low) as usize] = new_side(third, high);
        }
    }
}

// Marks the sides that are links.
fn mark_links(n: usize, links: &[Link], sides: &mut [Side])
    requires enough { fewest ≤ n }
    requires few { n ≤ most }
    ensures { (before : List Side) → FilledWith n links.now [] before sides.old → Fills n links.now before sides.new }
{
    for link in links {
        if let Some(place) = find_side(n, sides, link.from, link.to) {
            sides[place].link = true;
        }
    }
}

// Refuses a number of terminals that makes no ring, and a side area of the length `given` if that is too short for it.
fn check_room(n: usize, given: usize) -> Result<(), PlanFault>
    ensures { (links : List Link) → FirstIn (Condition n (side_area n given ∷ []) links) 0 2 result }
{
    check_terminals(n)?;
    let needed = side_count(n);
    check_areas(&[Area { needed, given }])
}

// Checks a plan and triangulates its ring into the side area; nothing is written where the plan is refused.
pub fn triangulate(n: usize, links: &[Link], sides: &mut [Side]) -> Result<(), PlanFault>
    ensures checked { First (Condition n (side_area n (length sides.old) ∷ []) links.now) result }
    ensures left { MatchResult result (λ _. Drawn n links.now sides.old sides.new) (λ _. sides.new ≡ sides.old) }
{
    check_room(n, sides.len())?;
    check_links(n, links)?;
    write_sides(n, links, sides);
    mark_links(n, links, sides);
    Ok(())
}

// What the fill decides and how a triangulated area is read.
pub fn areas_are_determined()
    ensures alike { EqualPlansFillAlike }
    ensures by_place { AreaByPlace }
    ensures joins { JoinsAreLinks }
{}
