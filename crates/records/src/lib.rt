// The records of a division, and the row of limits.
#![tactic(auto)]

ghost use Rattle.std.specs.Prelude.{◌≡◌, ◌≤◌, length, slice_index, Decides};
ghost use Rattle.records.specs.Few.{added, listed, none, Position, raised};
ghost use Rattle.records.specs.Limits.{limit, RowOfLimits};

// Up to eight numbers: the first `count` of `at`, the other places 0.
// A fixed array with a count beside it, since the records that hold it lie in lent memory and are copied.
#[derive(Clone, Copy, Debug, PartialEq, Eq)]
pub struct Few {
    pub count: u8,
    pub at: [u16; 8],
}

impl Few {
    // No number.
    pub fn none() -> Few
        ensures { result ≡ none }
    {
        Few {
            count: 0,
            at: [0; 8],
        }
    }

    // The numbers in use.
    pub fn as_slice(&self) -> &[u16]
        ensures { result.now ≡ listed self.now }
    {
        &self.at[..(self.count as usize).min(8)]
    }

    // How many numbers there are.
    pub fn len(self) -> usize
        ensures is { result ≡ length (listed self) }
        ensures few { result ≤ 8 }
    {
        self.as_slice().len()
    }

    // The number at the place k; 0 past the last.
    pub fn get(self, k: usize) -> u16
        ensures { result ≡ slice_index (listed self) k }
    {
        self.as_slice().get(k).copied().unwrap_or(0)
    }

    // One more at the end; a full record stays as it is.
    pub fn push(mut self, x: u16) -> Few
        ensures { result ≡ added self x }
    {
        if self.count < 8 {
            self.at[self.count as usize] = x;
            self.count += 1;
        }
        self
    }

    // One more at the end if it is above the last.
    pub fn push_rising(self, x: u16) -> Few
        ensures { result ≡ raised self x }
    {
        match self.as_slice().last() {
            Some(last) if *last >= x => self,
            _ => self.push(x),
        }
    }

    // The place of x.
    pub fn position(self, x: u16) -> Option<usize>
        ensures { Position (listed self) x result }
    {
        self.as_slice().iter().position(|number| *number == x)
    }
}

// A piece: a set of triangles joined along sides, those below the side `top` and outside the sides `holes`.
// Sides and pieces go by their index. The bounding seams are the holes, and the top unless it is the side 0;
// `edges` are their ends in rising order. A piece of one triangle has no children and no seam: 0 stands there, and not an
// Option, since the size of a record sets how much memory is lent for a plan.
#[derive(Clone, Copy, Debug, PartialEq, Eq)]
pub struct Piece {
    pub parent: u16,
    pub first: u16,
    pub second: u16,
    pub seam: u16,
    pub top: u16,
    pub holes: Few,
    pub edges: Few,
    pub level: u8,
}

impl Piece {
    // Whether the piece is a single triangle, and so is not cut.
    pub fn is_single(self) -> bool
        ensures { Decides result (self.first ≡ 0) }
    {
        self.first == 0
    }
}

// The most triangles of a piece at level 0, 2, 4 and so on: each number is (2t+1) div 3 of the one before, t.
pub const LIMITS: [u16; 21] = [
    4094, 2729, 1819, 1213, 809, 539, 359, 239, 159, 106, 71, 47, 31, 21, 14, 9, 6, 4, 3, 2, 1,
];

// The most triangles of a piece at level 2k; 0 past the row.
pub fn limit_at(k: usize) -> u16
    ensures is { result ≡ limit k }
    ensures row { RowOfLimits }
{
    LIMITS.get(k).copied().unwrap_or(0)
}
