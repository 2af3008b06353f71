// The records of a plan, read one at a time. Past the last record of an area, all fields are 0.
ghost use Rattle.std.specs.Prelude.{◌≡◌, slice_index_or};
ghost use Rattle.pieces.specs.Holding.{piece_at};
ghost use Rattle.pieces.specs.Sides.{no_side};

use records::{Few, Piece};
use ring::Side;

// The record of the piece p.
pub fn piece_at(pieces: &[Piece], p: u16) -> Piece
    ensures { result ≡ piece_at pieces.now p }
{
    pieces.get(p as usize).copied().unwrap_or(Piece {
        parent: 0,
        first: 0,
        second: 0,
        seam: 0,
        top: 0,
        holes: Few::none(),
        edges: Few::none(),
        level: 0,
    })
}

// The record of the side i.
pub fn side_at(sides: &[Side], i: u32) -> Side
    ensures { result ≡ slice_index_or sides.now i no_side }
{
    sides.get(i as usize).copied().unwrap_or(Side {
        low: 0,
        high: 0,
        link: false,
        leaf: 0,
    })
}

// The records of a plan: those of its sides and those of its pieces.
#[derive(Clone, Copy)]
pub struct Records<'a> {
    pub sides: &'a [Side],
    pub pieces: &'a [Piece],
}

impl Records<'_> {
    // The record of the piece p.
    pub fn piece(self, p: u16) -> Piece
        ensures { result ≡ piece_at self.entry.pieces.now p }
    {
        piece_at(self.pieces, p)
    }

    // The record of the side i.
    pub fn side(self, i: u32) -> Side
        ensures { result ≡ slice_index_or self.entry.sides.now i no_side }
    {
        side_at(self.sides, i)
    }
}
