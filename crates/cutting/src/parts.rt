// The two parts of a cut, and the finished record of a piece.
ghost use Rattle.std.specs.Prelude.{◌≡◌, ℕ, Bool, fold};
ghost use Rattle.cutting.specs.Calls.{Computes};
ghost use Rattle.pieces.specs.Cuts.{around as around_side, chosen as chosen_by, first_part, fresh as fresh_piece, inner_holes, outer_holes, parted as parted_record, rim as rim_of, second_part, single as single_record, whole as whole_plan};
ghost use Rattle.pieces.specs.Sides.{ends_of, lengths};
ghost use Rattle.records.specs.Few.{listed};

use crate::sides::{high_end, length_of, lies_within, low_end, narrow};
use records::{Few, Piece};
use ring::Side;

// The holes that stand where they are asked for, put behind those in `to`.
fn chosen<F: Fn(u16) -> bool>(to: Few, holes: Few, stands: F) -> Few
    requires { F.IsAlwaysCallable stands }
    ensures { (test : ℕ → Bool) → Computes (F.post stands) test → result ≡ chosen_by test to (listed holes) }
{
    let mut to = to;
    for &hole in holes.as_slice() {
        if stands(hole) {
            to = to.push(hole);
        }
    }
    to
}

// The holes below the seam v.
fn inner_holes(sides: &[Side], v: u16, holes: Few) -> Few
    ensures { result ≡ inner_holes (lengths sides.now) v holes }
{
    chosen(Few::none(), holes, |hole| lies_within(sides, v, hole))
}

// The holes that are not below the seam v, and v, in the order of their indices.
fn outer_holes(sides: &[Side], v: u16, holes: Few) -> Few
    ensures { result ≡ outer_holes (lengths sides.now) v holes }
{
    let end = v as usize + 2 * length_of(sides, v) as usize;
    let before = chosen(Few::none(), holes, |hole| hole < v);
    chosen(before.push(v), holes, |hole| end <= hole as usize + 1)
}

// A piece that is still to be cut.
fn fresh(parent: u16, level: u8, top: u16, holes: Few) -> Piece
    ensures { result ≡ fresh_piece parent level top holes }
{
    Piece {
        parent,
        first: 0,
        second: 0,
        seam: 0,
        top,
        holes,
        edges: Few::none(),
        level,
    }
}

// The whole plan, still to be cut.
pub fn whole() -> Piece
    ensures { result ≡ whole_plan }
{
    fresh(0, 0, 0, Few::none())
}

// The part of the piece p below the seam v.
pub fn first_part(sides: &[Side], p: u16, piece: Piece, v: u16) -> Piece
    ensures { result ≡ first_part (lengths sides.now) p piece v }
{
    let holes = inner_holes(sides, v, piece.holes);
    fresh(p, piece.level.saturating_add(1), v, holes)
}

// The part of the piece p outside the seam v.
pub fn second_part(sides: &[Side], p: u16, piece: Piece, v: u16) -> Piece
    ensures { result ≡ second_part (lengths sides.now) p piece v }
{
    let holes = outer_holes(sides, v, piece.holes);
    fresh(p, piece.level.saturating_add(1), piece.top, holes)
}

// Both ends of the side h behind rising terminals.
fn around(sides: &[Side], edges: Few, h: u16) -> Few
    ensures { result ≡ around_side (ends_of sides.now) edges h }
{
    edges
        .push_rising(low_end(sides, h))
        .push_rising(high_end(sides, h))
}

// The ends of the holes behind rising terminals.
fn around_holes(sides: &[Side], edges: Few, holes: Few) -> Few
    ensures { result ≡ fold (around_side (ends_of sides.now)) edges (listed holes) }
{
    holes
        .as_slice()
        .iter()
        .fold(edges, |edges, &hole| around(sides, edges, hole))
}

// The ends of the bounding seams in rising order.
fn rim(sides: &[Side], top: u16, holes: Few) -> Few
    ensures { result ≡ rim_of (ends_of sides.now) top (listed holes) }
{
    if top == 0 {
        return around_holes(sides, Few::none(), holes);
    }
    let first = Few::none().push_rising(low_end(sides, top));
    around_holes(sides, first, holes).push_rising(high_end(sides, top))
}

// The finished record of a piece of one triangle.
pub fn single(sides: &[Side], uncut: Piece) -> Piece
    ensures { result ≡ single_record (ends_of sides.now) uncut }
{
    Piece {
        first: 0,
        second: 0,
        seam: 0,
        edges: rim(sides, uncut.top, uncut.holes),
        ..uncut
    }
}

// The finished record of the piece p, cut along v; its first part has `size` triangles.
pub fn parted(sides: &[Side], p: u16, piece: Piece, v: u16, size: u16) -> Piece
    ensures { result ≡ parted_record (ends_of sides.now) p piece v size }
{
    Piece {
        first: narrow(p as usize + 1),
        second: narrow(p as usize + 2 * size as usize),
        seam: v,
        edges: rim(sides, piece.top, piece.holes),
        ..piece
    }
}
