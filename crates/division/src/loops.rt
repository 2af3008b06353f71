// Cutting all pieces: they are taken off the to-do list, cut, and put on it again in two parts.
ghost use Rattle.std.specs.Prelude.{◌≡◌, ℕ, ◌≤◌, drop, IsOkUnless, length};
ghost use Rattle.division.specs.Turns.{AllCut, BothWait, Fitting, Turn};
ghost use Rattle.division.specs.declared.Undivided.TheVariants.{NotFilled};
ghost use Rattle.pieces.specs.Sides.{ends_of};

use crate::Undivided;
use cutting::{first_part, parted, seam_of, second_part, single, triangles, whole};
use records::Piece;
use ring::Side;
use stack::{Full, Stack};

// Puts two pieces on the list, the first on top.
fn wait(todo: &mut Stack<'_, Piece>, first: Piece, second: Piece) -> Result<(), Full>
    ensures both { BothWait result todo.old.len todo.old.items.now first second todo.new.len todo.new.items.now }
    ensures held { todo.new.items.ghost_name ≡ todo.old.items.ghost_name }
{
    todo.push(second)?;
    todo.push(first)
}

// Takes the next piece off the list, writes its finished record, the record p, and then puts its parts on the list.
fn cut_next(
    sides: &[Side],
    p: u16,
    record: &mut Piece,
    todo: &mut Stack<'_, Piece>,
) -> Result<(), Undivided>
    ensures turn { Turn (ends_of sides.now) p todo.old.items.now todo.old.len result record.new todo.new.items.now todo.new.len }
    ensures refused { IsOkUnless result NotFilled }
    ensures held { todo.new.items.ghost_name ≡ todo.old.items.ghost_name }
{
    let piece = todo.pop().ok_or(Undivided::NotFilled)?;
    if triangles(sides, piece.holes, piece.top) <= 1 {
        *record = single(sides, piece);
        return Ok(());
    }
    let seam = seam_of(sides, piece.top, piece.holes);
    let first = first_part(sides, p, piece, seam);
    let size = triangles(sides, first.holes, first.top);
    *record = parted(sides, p, piece, seam, size);
    wait(todo, first, second_part(sides, p, piece, seam))?;
    Ok(())
}

// Cuts the whole plan: the first `count` records are written in the order of their numbers, and no other.
pub(crate) fn cut_pieces(
    sides: &[Side],
    count: u16,
    pieces: &mut [Piece],
    todo: &mut [Piece],
) -> Result<(), Undivided>
    requires room { count ≤ length pieces.old }
    ensures cut { (n : ℕ) → Fitting n (ends_of sides.now) count todo.old → AllCut (ends_of sides.now) count result pieces.new }
    ensures refused { IsOkUnless result NotFilled }
    ensures past { drop count pieces.new ≡ drop count pieces.old }
{
    let mut waiting = Stack::new(todo);
    waiting.push(whole())?;
    let records = &mut pieces[..count as usize];
    for (p, record) in records.iter_mut().enumerate() {
        cut_next(sides, p as u16, record, &mut waiting)?;
    }
    Ok(())
}
