// A step from a piece up to the piece that was cut.
ghost use Rattle.std.specs.Prelude.{◌≡◌, if◌then◌else◌, nat_eq, IfSome, IsSome};
ghost use Rattle.records.specs.Few.{Among, listed};
ghost use Rattle.pieces.specs.Sides.{ends_of};
ghost use Rattle.pieces.specs.Holding.{piece_at};
ghost use Rattle.climbing.specs.Steps.{SeamStands};
ghost use Rattle.quoting.specs.Places.{BothPlaces, half_at, step_at};

use holders::Records;
use records::{Few, Piece};
use ring::Side;

// A piece on one side of a seam: its edge terminals, and where the ends of the seam stand among them.
#[derive(Clone, Copy)]
pub struct Half {
    pub piece: u16,
    pub edges: Few,
    pub low: usize,
    pub high: usize,
}

// From a piece up to its parent, which has these edge terminals, and which a seam parts into the piece and the one across.
#[derive(Clone, Copy)]
pub struct Step {
    pub up: u16,
    pub edges: Few,
    pub own: Half,
    pub across: Half,
}

// Where two terminals stand among a piece's edge terminals, if both do.
pub(crate) fn places_of(edges: Few, u: u16, v: u16) -> Option<(usize, usize)>
    ensures { BothPlaces (listed edges) u v result }
{
    let i = edges.position(u)?;
    let j = edges.position(v)?;
    Some((i, j))
}

// The piece p beside the seam; none where an end of the seam is no edge terminal of it.
fn half_of(records: Records<'_>, seam: Side, p: u16) -> Option<Half>
    ensures is { IfSome result (λ half. half ≡ half_at records.entry.pieces.now seam.low seam.high p) }
    ensures there { Among seam.low (listed (piece_at records.entry.pieces.now p).edges) → Among seam.high (listed (piece_at records.entry.pieces.now p).edges) → IsSome result }
{
    let edges = records.piece(p).edges;
    let (low, high) = places_of(edges, seam.low, seam.high)?;
    Some(Half {
        piece: p,
        edges,
        low,
        high,
    })
}

// The other child of the piece that p is a child of.
fn sibling(parent: Piece, p: u16) -> u16
    ensures { result ≡ (if nat_eq parent.first p then parent.second else parent.first) }
{
    if parent.first == p {
        parent.second
    } else {
        parent.first
    }
}

// The step up from the piece p; none where an end of the seam is no edge terminal of one of the two pieces beside it.
pub(crate) fn step_from(records: Records<'_>, p: u16) -> Option<Step>
    ensures is { IfSome result (λ step. step ≡ step_at (ends_of records.entry.sides.now) records.entry.pieces.now p) }
    ensures there { SeamStands (ends_of records.entry.sides.now) records.entry.pieces.now p → IsSome result }
{
    let up = records.piece(p).parent;
    let cut = records.piece(up);
    let seam = records.side(cut.seam as u32);
    let own = half_of(records, seam, p)?;
    let across = half_of(records, seam, sibling(cut, p))?;
    Some(Step {
        up,
        edges: cut.edges,
        own,
        across,
    })
}
