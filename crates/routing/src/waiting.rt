// Parts of a trip that wait to be unfolded, on a list with the next one on top.
ghost use Rattle.std.specs.Prelude.{◌≡◌};
ghost use Rattle.routing.specs.Waiting.{AllPut, Put};

use stack::{Full, Stack};

// A part of a trip: a best trip from one terminal to another over the lanes of a piece.
#[derive(Clone, Copy)]
pub struct RoutePart {
    pub piece: u16,
    pub from: u16,
    pub to: u16,
}

// The parts that a part of a cut piece is split into, one after another. One whose ends are the same counts for nothing.
#[derive(Clone, Copy)]
pub enum Parts {
    // Within one child.
    Within(RoutePart),
    // From one child to the other.
    Across(RoutePart, RoutePart),
    // Out of one child, through the other, and back.
    Round(RoutePart, RoutePart, RoutePart),
}

// Puts a part on top of the list, unless its ends are the same.
pub(crate) fn put(todo: &mut Stack<'_, RoutePart>, part: RoutePart) -> Result<(), Full>
    ensures put { Put result todo.old part todo.new }
    ensures held { todo.new.items.ghost_name ≡ todo.old.items.ghost_name }
{
    if part.from == part.to {
        return Ok(());
    }
    todo.push(part)
}

// Puts parts on the list, the first on top.
pub(crate) fn put_all(todo: &mut Stack<'_, RoutePart>, parts: Parts) -> Result<(), Full>
    ensures put { AllPut result todo.old parts todo.new }
    ensures held { todo.new.items.ghost_name ≡ todo.old.items.ghost_name }
{
    match parts {
        Parts::Within(only) => put(todo, only),
        Parts::Across(first, last) => {
            put(todo, last)?;
            put(todo, first)
        }
        Parts::Round(out, across, back) => {
            put(todo, back)?;
            put(todo, across)?;
            put(todo, out)
        }
    }
}
