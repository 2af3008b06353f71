// The sheets of a plan on which no lane stands.
ghost use Rattle.std.specs.Prelude.{◌≡◌, ℕ, ◌+◌, ◌*◌, ◌/◌, ◌<◌, ◌≤◌, min, List, map, length, drop, slice_index_or};
ghost use Rattle.trips.specs.Trips.{LaneMap};
ghost use Rattle.records.specs.Few.{listed};
ghost use Rattle.pieces.specs.Sides.{Ends};
ghost use Rattle.pieces.specs.Division.{Division};
ghost use Rattle.piece_rates.specs.Bare.{bare_place, BareSheets, NoLanes};
ghost use Rattle.piece_rates.specs.Changes.{AllShown};

use rates::kind::Rate;
use records::Piece;
use sheets::{ROW, SHEET};

// The place k of a sheet with so many edge terminals: staying put costs nothing, and no terminal reaches another.
fn bare_at<R: Rate>(count: usize, k: usize) -> R
    ensures { R.means result ≡ bare_place R.kind count k }
{
    if (k / ROW == k % ROW) & (k % ROW < count) {
        R::still()
    } else {
        R::none()
    }
}

// The sheet of one piece.
fn write_bare_sheet<R: Rate>(piece: Piece, sheet: &mut [R])
    requires { length sheet.old ≡ 64 }
    ensures { (k : ℕ) → k < 64 → slice_index_or (map R.means sheet.new) k R.kind.none ≡ bare_place R.kind (length (listed piece.edges)) k }
{
    let count = piece.edges.len();
    for (k, place) in sheet.iter_mut().enumerate() {
        *place = bare_at(count, k);
    }
}

// Writes the sheets of the pieces that there is room for, as they are while no lane stands.
pub fn write_bare_sheets<R: Rate>(pieces: &[Piece], sheets: &mut [R])
    ensures written { BareSheets R.kind pieces.now (map R.means sheets.new) }
    ensures behind { drop (64 * min (length pieces.now) (length sheets.old / 64)) sheets.new ≡ drop (64 * min (length pieces.now) (length sheets.old / 64)) sheets.old }
    ensures shown { (n : ℕ) (e : Ends) (m : LaneMap R.Member) → NoLanes R.kind m → Division n e pieces.now → 2 * n ≤ length pieces.now + 5 → 64 * (2 * n) ≤ length sheets.old + 320 → AllShown R.kind n e pieces.now m (map R.means sheets.new) }
{
    let most = pieces.len().min(sheets.len() / SHEET);
    // Sheets by index: when the loan of one by `chunks_exact_mut` ends, a proof knows its length and not its rates.
    for (p, piece) in pieces[..most].iter().enumerate() {
        write_bare_sheet(*piece, &mut sheets[SHEET * p..SHEET * p + SHEET]);
    }
}
