// Ways down from a piece towards terminals.
ghost use Rattle.std.specs.Prelude.{◌≡◌, ℕ, ◌+◌, ◌*◌, ◌<◌, Decides};
ghost use Rattle.records.specs.Few.{Among, listed};
ghost use Rattle.pieces.specs.Sides.{ends_of};
ghost use Rattle.climbing.specs.Ways.{Ending, towards};
ghost use Rattle.quoting.specs.Places.{common_child};
ghost use Rattle.quoting.specs.Walks.{BeginsAt, DividedRing, PartsAt, TouchesAt};

use crate::seams::{Child, Seam};
use crate::steps::places_of;
use holders::{MOST_HOLDERS, Records};
use records::Piece;

// Whether a way down towards both terminals ends at the piece: both are its edge terminals, or it is a single triangle.
pub(crate) fn ends_there(piece: Piece, u: u16, v: u16) -> bool
    ensures { Decides result (Ending piece u v) }
{
    piece.is_single() || places_of(piece.edges, u, v).is_some()
}

// The child of a cut piece that has the terminal u: the first, if u lies from one end of the seam to the other.
pub(crate) fn child_towards(records: Records<'_>, piece: Piece, u: u16) -> u16
    ensures { result ≡ towards (ends_of records.entry.sides.now) piece u }
{
    if Seam::of(records, piece).lies(Child::First, u) {
        piece.first
    } else {
        piece.second
    }
}

// The child of a cut piece that has both terminals; none where they lie apart.
fn common_child(records: Records<'_>, piece: Piece, u: u16, v: u16) -> Option<u16>
    ensures { result ≡ common_child (ends_of records.entry.sides.now) piece u v }
{
    let seam = Seam::of(records, piece);
    if seam.both_lie(Child::First, u, v) {
        Some(piece.first)
    } else if seam.both_lie(Child::Second, u, v) {
        Some(piece.second)
    } else {
        None
    }
}

// On the way down from the piece p towards the terminal u, the first piece that has u as an edge terminal or is a single triangle.
pub(crate) fn start_below(records: Records<'_>, p: u16, u: u16) -> u16
    ensures { (n : ℕ) → DividedRing records.entry n → p + 5 < 2 * n → TouchesAt records.entry n p u → BeginsAt records.entry n p u result }
{
    let mut q = p;
    for _ in 0..MOST_HOLDERS {
        let piece = records.piece(q);
        if ends_there(piece, u, u) {
            return q;
        }
        q = child_towards(records, piece, u);
    }
    q
}

// On the way down from the piece p towards both terminals, the first piece that has both as edge terminals, is a single triangle,
// or is parted between them.
pub(crate) fn parting_below(records: Records<'_>, p: u16, u: u16, v: u16) -> u16
    ensures { (n : ℕ) → DividedRing records.entry n → p + 5 < 2 * n → TouchesAt records.entry n p u → TouchesAt records.entry n p v → PartsAt records.entry n p u v result }
{
    let mut q = p;
    for _ in 0..MOST_HOLDERS {
        let piece = records.piece(q);
        if ends_there(piece, u, v) {
            return q;
        }
        let Some(next) = common_child(records, piece, u, v) else {
            return q;
        };
        q = next;
    }
    q
}
