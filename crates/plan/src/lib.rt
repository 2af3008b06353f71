// A plan laid out: checked, its ring filled to triangles, and the triangles divided into pieces.
#![tactic(auto)]

ghost use Rattle.std.specs.Prelude.{◌≡◌, min, List, length};
ghost use Rattle.ring.specs.Faults.{Condition, First, FirstIn, most};
ghost use Rattle.plan.specs.Layout.{EqualPlansDivideAlike, Leaves, lent, piece_count};

use division::{TODO_PIECES, divide};
use records::Piece;
use ring::{
    Area, Link, MOST_TERMINALS, PlanFault, Side, check_areas, check_terminals, side_count,
    triangulate,
};

// The number of pieces of a plan of `n` terminals; above the most terminals, that of the most.
pub fn piece_count(n: usize) -> usize
    ensures { result ≡ piece_count (min n most) }
{
    (2 * n.min(MOST_TERMINALS)).saturating_sub(5)
}

// Refuses a number of terminals that makes no ring, and areas of the given lengths if one is too short for it.
fn check_room(n: usize, sides: usize, pieces: usize, todo: usize) -> Result<(), PlanFault>
    ensures { (links : List Link) → FirstIn (Condition n (lent n sides pieces todo) links) 0 2 result }
{
    check_terminals(n)?;
    check_areas(&[
        Area {
            needed: side_count(n),
            given: sides,
        },
        Area {
            needed: piece_count(n),
            given: pieces,
        },
        Area {
            needed: TODO_PIECES,
            given: todo,
        },
    ])
}

// Checks a plan, fills its ring and divides it into pieces. A refusal leaves the side and piece areas as they were;
// the to-do area is free afterwards.
pub fn lay_out(
    n: usize,
    links: &[Link],
    sides: &mut [Side],
    pieces: &mut [Piece],
    todo: &mut [Piece],
) -> Result<(), PlanFault>
    ensures checked { First (Condition n (lent n (length sides.old) (length pieces.old) (length todo.old)) links.now) result }
    ensures left { Leaves n links.now sides.old pieces.old result sides.new pieces.new }
{
    check_room(n, sides.len(), pieces.len(), todo.len())?;
    triangulate(n, links, sides)?;
    // The areas are long enough and the ring is filled.
    divide(sides, n, pieces, todo).unwrap();
    Ok(())
}

// Two plans with equal n and links leave equal side and piece records.
pub fn equal_plans_divide_alike()
    ensures { EqualPlansDivideAlike }
{}
