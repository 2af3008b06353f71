// Telling the sides their leaf pieces. Nothing but the field `leaf` is written.
ghost use Rattle.std.specs.Prelude.{◌≡◌, length, min};
ghost use Rattle.pieces.specs.Marks.{mark_all, mark_one, mark_piece, mark_triangle, mark_unit};

use cutting::{left_of, length_of, right_of};
use records::Piece;
use ring::Side;

// Marks the side i.
fn mark_one(sides: &mut [Side], i: u16, leaf: u16)
    ensures { sides.new ≡ mark_one sides.old i leaf }
{
    // Not by `get_mut`: of a slice it tells a proof the length alone, and not what was written.
    if (i as usize) < sides.len() {
        sides[i as usize].leaf = leaf;
    }
}

// Marks the side i if its length is 1.
fn mark_unit(sides: &mut [Side], i: u16, leaf: u16)
    ensures { sides.new ≡ mark_unit sides.old i leaf }
{
    if length_of(sides, i) == 1 {
        mark_one(sides, i, leaf);
    }
}

// Marks the sides whose lanes belong to the triangle with this base.
fn mark_triangle(sides: &mut [Side], base: u16, leaf: u16)
    ensures { sides.new ≡ mark_triangle sides.old base leaf }
{
    let right = right_of(sides, base);
    mark_one(sides, base, leaf);
    mark_unit(sides, left_of(base), leaf);
    mark_unit(sides, right, leaf);
}

// Marks the sides of an uncut piece.
fn mark_piece(sides: &mut [Side], p: u16, piece: Piece)
    ensures { sides.new ≡ mark_piece sides.old p piece }
{
    if piece.is_single() {
        mark_triangle(sides, piece.top, p);
    }
}

// Marks the sides of the uncut ones of the first `count` pieces.
pub fn mark_leaves(sides: &mut [Side], count: u16, pieces: &[Piece])
    ensures { sides.new ≡ mark_all sides.old pieces.now (min count (length pieces.now)) }
{
    for (p, piece) in (0..count).zip(pieces) {
        mark_piece(sides, p, *piece);
    }
}
