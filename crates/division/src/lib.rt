// The whole division: all pieces are cut, and every side is told its leaf piece.
#![tactic(auto)]

ghost use Rattle.std.specs.Prelude.{◌≡◌, ℕ, ◌≤◌, drop, IsOkUnless, length};
ghost use Rattle.division.specs.Outcome.{FrontDone, Outcome, SameSidesSameRecords};
ghost use Rattle.division.specs.Turns.{Fitting};
ghost use Rattle.division.specs.declared.Undivided.TheVariants.{NotFilled};
ghost use Rattle.pieces.specs.Marks.{SameSides};
ghost use Rattle.pieces.specs.Sides.{ends_of};

use crate::loops::cut_pieces;
use crate::marks::mark_leaves;
use records::Piece;
use ring::{FEWEST_TERMINALS, MOST_TERMINALS, Side};
use stack::Full;
use std::error::Error;
use std::fmt;

mod loops;
mod marks;

// Why a plan was not divided.
#[derive(Clone, Copy, Debug, PartialEq, Eq)]
pub enum Undivided {
    // There are fewer than 3 terminals or more than 4,096.
    Terminals,
    // An area is too short.
    Short,
    // The sides are no filled ring.
    NotFilled,
}

impl fmt::Display for Undivided {
    ghost use Rattle.std.specs.Prelude.{Some};
    ghost use Rattle.division.specs.Outcome.{reason};

    ghost output = { λ refusal. Some (reason refusal) };

    fn fmt<W: fmt::Write>(&self, f: &mut fmt::Formatter<W>) -> fmt::Result {
        f.write_str(match self {
            Undivided::Terminals => "a ring has 3 to 4096 terminals",
            Undivided::Short => "an area is too short",
            Undivided::NotFilled => "the sides are no filled ring",
        })
    }
}

impl Error for Undivided {}

// More pieces wait than ever do while a filled ring is divided.
impl From<Full> for Undivided {
    ghost from_gives = { λ _ e. e ≡ NotFilled };

    fn from(_full: Full) -> Self {
        Self::NotFilled
    }
}

// How many pieces may wait to be cut. At most 41 ever do.
pub const TODO_PIECES: usize = 64;

// Cuts the plan and marks its sides. A count beside the lent areas, since these may be longer than the plan needs.
fn divide_front(
    sides: &mut [Side],
    count: u16,
    pieces: &mut [Piece],
    todo: &mut [Piece],
) -> Result<(), Undivided>
    requires room { count ≤ length pieces.old }
    ensures done { (n : ℕ) → Fitting n (ends_of sides.old) count todo.old → FrontDone (ends_of sides.old) count sides.old result sides.new pieces.new }
    ensures refused { IsOkUnless result NotFilled }
    ensures same { SameSides sides.old sides.new }
    ensures past { drop count pieces.new ≡ drop count pieces.old }
{
    cut_pieces(sides, count, pieces, todo)?;
    mark_leaves(sides, count, pieces);
    Ok(())
}

// Divides the filled ring of n terminals whose 2n - 3 sides lie in preorder at the front of `sides`: writes the 2n - 5 piece
// records and the leaf of each side. The to-do area is free afterwards.
pub fn divide(
    sides: &mut [Side],
    n: usize,
    pieces: &mut [Piece],
    todo: &mut [Piece],
) -> Result<(), Undivided>
    ensures { Outcome n sides.old pieces.old todo.old result sides.new pieces.new }
{
    if n < FEWEST_TERMINALS || n > MOST_TERMINALS {
        return Err(Undivided::Terminals);
    }
    let count = 2 * n - 5;
    if sides.len() < count + 2 || pieces.len() < count || todo.len() < TODO_PIECES {
        return Err(Undivided::Short);
    }
    divide_front(&mut sides[0..count + 2], count as u16, pieces, todo)
}

// The records depend on the ends and links of the sides alone.
pub fn same_sides_same_records()
    ensures { SameSidesSameRecords }
{}
