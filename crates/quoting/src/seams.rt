// The seam of a cut piece, and on which side of it terminals lie.
ghost use Rattle.std.specs.Prelude.{◌≡◌, ◌&&◌, if◌then◌else◌, not};
ghost use Rattle.pieces.specs.Sides.{ends_of};
ghost use Rattle.quoting.specs.Seams.{is_first, lies_in};

use holders::Records;
use records::Piece;

// A child of a cut piece.
#[derive(Clone, Copy)]
pub enum Child {
    First,
    Second,
}

impl Child {
    // A type beside that of the ends of a seam, with an `other` of its own, since a child and an end must not be mixed.
    pub fn other(self) -> Child
        ensures { is_first result ≡ not (is_first self) }
    {
        match self {
            Child::First => Child::Second,
            Child::Second => Child::First,
        }
    }
}

// A cut piece, and the ends of its seam.
#[derive(Clone, Copy)]
pub struct Seam {
    pub piece: Piece,
    pub low: u16,
    pub high: u16,
}

impl Seam {
    // That of a piece.
    pub fn of(records: Records<'_>, piece: Piece) -> Seam
        ensures { result ≡ record { piece = piece; low = (ends_of records.entry.sides.now).low piece.seam; high = (ends_of records.entry.sides.now).high piece.seam } }
    {
        let side = records.side(piece.seam as u32);
        Seam {
            piece,
            low: side.low,
            high: side.high,
        }
    }

    // The number of a child.
    pub fn child(self, which: Child) -> u16
        ensures { result ≡ (if is_first which then self.piece.first else self.piece.second) }
    {
        match which {
            Child::First => self.piece.first,
            Child::Second => self.piece.second,
        }
    }

    // Whether a child has the terminal: the first from end to end, the second those not strictly between.
    pub fn lies(self, which: Child, u: u16) -> bool
        ensures { result ≡ lies_in self.low self.high (is_first which) u }
    {
        match which {
            Child::First => (self.low <= u) & (u <= self.high),
            Child::Second => (u <= self.low) | (self.high <= u),
        }
    }

    // Whether a child has both terminals.
    pub fn both_lie(self, which: Child, u: u16, v: u16) -> bool
        ensures { result ≡ (lies_in self.low self.high (is_first which) u && lies_in self.low self.high (is_first which) v) }
    {
        self.lies(which, u) & self.lies(which, v)
    }
}
