// The pieces that hold a lane: its leaf piece and those above it. Records of any content are walked safely and in few steps.
#![tactic(auto)]

mod reads;

ghost use Rattle.std.specs.Prelude.{◌≡◌, ℕ, ◌+◌, ◌*◌, ◌<◌, ◌≤◌, length, take, drop, ◌↔◌, if◌then◌else◌, Some, None, IsNone, IfNone, IfSome, IsSomeAnd};
ghost use Rattle.holders.specs.Walks.{Walked};
ghost use Rattle.pieces.specs.Division.{Division, LeavesMarked};
ghost use Rattle.pieces.specs.Holders.{climbs, LaneHolders, WayUp};
ghost use Rattle.pieces.specs.Holding.{piece_at};
ghost use Rattle.pieces.specs.Sides.{Ends, Filled, span};

pub use reads::{Records, piece_at, side_at};
use records::Piece;

// The most pieces that hold a lane: one at each level from 0 to 40.
pub const MOST_HOLDERS: usize = 41;

// The parent of the piece p, if its record names one with a lower number.
pub fn parent_of(pieces: &[Piece], p: u16) -> Option<u16>
    ensures { result ≡ (if climbs pieces.now p then Some (piece_at pieces.now p).parent else None) }
{
    let parent = pieces.get(p as usize)?.parent;
    if parent < p { Some(parent) } else { None }
}

// Writes the piece `from` and those above it, and says how many they are.
pub fn way_up(pieces: &[Piece], from: u16, out: &mut [u16]) -> usize
    ensures walked { Walked pieces.now from out.old result out.new }
    ensures complete { (n : ℕ) (e : Ends) → Division n e pieces.now → 2 * n ≤ length pieces.now + 5 → from + 5 < 2 * n → 41 ≤ length out.old → WayUp pieces.now from (take result out.new) }
{
    let most = out.len().min(MOST_HOLDERS);
    let mut p = from;
    for (k, place) in out[..most].iter_mut().enumerate() {
        *place = p;
        match parent_of(pieces, p) {
            Some(parent) => p = parent,
            None => return k + 1,
        }
    }
    most
}

// Writes the pieces that hold the lanes of the side i, from its leaf piece up, and says how many they are.
// Where there is no such side, nothing is written.
pub fn lane_holders(records: Records, i: u16, out: &mut [u16]) -> Option<usize>
    ensures missing { IsNone result ↔ (length records.entry.sides.now ≤ i) }
    ensures left { IfNone result (out.new ≡ out.old) }
    ensures inside { IfSome result (λ count. count ≤ length out.old) }
    ensures few { IfSome result (λ count. count ≤ 41) }
    ensures behind { IfSome result (λ count. drop count out.new ≡ drop count out.old) }
    ensures holders { (n : ℕ) (e : Ends) → Filled n e → Division n e records.entry.pieces.now → LeavesMarked n records.entry.sides.now (span e) records.entry.pieces.now → 2 * n ≤ length records.entry.sides.now + 3 → 2 * n ≤ length records.entry.pieces.now + 5 → i + 3 < 2 * n → 41 ≤ length out.old → IsSomeAnd result (λ count. LaneHolders n (span e) records.entry.pieces.now i (take count out.new)) }
{
    let side = records.sides.get(i as usize)?;
    Some(way_up(records.pieces, side.leaf, out))
}
