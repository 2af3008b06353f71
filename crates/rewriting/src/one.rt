// The sheet of one piece, made anew.
ghost use Rattle.std.specs.Prelude.{◌≡◌, ℕ, ◌+◌, ◌*◌, ◌<◌, ◌≤◌, ◌↔◌, IsNone, IfSome, map, length, take, drop};
ghost use Rattle.trips.specs.Trips.{LaneMap};
ghost use Rattle.pieces.specs.Sides.{ends_of};
ghost use Rattle.pieces.specs.Holding.{piece_at};
ghost use Rattle.piece_rates.specs.Changes.{OnlySheet, PartsRight, PieceShown, PlanStands};
ghost use Rattle.piece_rates.specs.Sheets.{SheetShows};

use holders::Records;
use rates::kind::Rate;
use records::Piece;
use sheets::{Cut, SHEET, write_leaf, write_parent};

// A piece with its parts and the ends of its seam.
fn cut_of(records: Records, piece: Piece) -> Cut
    ensures { result ≡ record { piece = piece; first = piece_at records.entry.pieces.now piece.first; second = piece_at records.entry.pieces.now piece.second; low = (ends_of records.entry.sides.now).low piece.seam; high = (ends_of records.entry.sides.now).high piece.seam } }
{
    let seam = records.side(piece.seam as u32);
    Cut {
        piece,
        first: records.piece(piece.first),
        second: records.piece(piece.second),
        low: seam.low,
        high: seam.high,
    }
}

// The sheet of the piece p.
fn sheet_of<R: Rate>(sheets: &[R], p: u16) -> Option<&[R]>
    ensures missing { IsNone result ↔ (length sheets.now < 64 * p + 64) }
    ensures is { IfSome result (λ sheet. sheet.now ≡ take 64 (drop (64 * p) sheets.now)) }
{
    let at = SHEET * p as usize;
    sheets.get(at..at + SHEET)
}

// Computes the sheet of the piece p: of one triangle from its lanes, of several from the sheets of its parts.
fn sheet_into<R: Rate>(records: Records, lanes: &[R], sheets: &[R], p: u16, sheet: &mut [R])
    ensures shows { (n : ℕ) (m : LaneMap R.Member) → PlanStands R.kind n m records.entry.sides.now records.entry.pieces.now (map R.means lanes.now) (map R.means sheets.now) → PartsRight R.kind n (ends_of records.entry.sides.now) records.entry.pieces.now m (map R.means sheets.now) p → p + 5 < 2 * n → 64 ≤ length sheet.old → SheetShows R.kind n (ends_of records.entry.sides.now) (piece_at records.entry.pieces.now p) m (map R.means sheet.new) }
    ensures kept { drop 64 sheet.new ≡ drop 64 sheet.old }
{
    let piece = records.piece(p);
    if piece.is_single() {
        write_leaf(records.sides, lanes, piece, sheet);
        return;
    }
    let Some(a) = sheet_of(sheets, piece.first) else {
        return;
    };
    let Some(b) = sheet_of(sheets, piece.second) else {
        return;
    };
    write_parent(cut_of(records, piece), a, b, sheet);
}

// Copies the first 64 rates of the work area to the sheet of the piece p.
fn put_sheet<R: Rate>(work: &[R], p: u16, sheets: &mut [R])
    requires full_sheet { 64 ≤ length work.now }
    requires room { 64 * p + 64 ≤ length sheets.old }
    ensures there { take 64 (drop (64 * p) sheets.new) ≡ take 64 work.now }
    ensures only { OnlySheet p sheets.old sheets.new }
{
    let at = SHEET * p as usize;
    sheets[at..at + SHEET].copy_from_slice(&work[..SHEET]);
}

// Makes the sheet of the piece p anew.
// Sheets and work are two parameters: two areas lent by the fields of one lent struct cannot be passed on in one call.
pub(crate) fn rewrite_sheet<R: Rate>(
    records: Records,
    lanes: &[R],
    sheets: &mut [R],
    work: &mut [R],
    p: u16,
)
    requires work_there { 64 ≤ length work.old }
    requires room { 64 * p + 64 ≤ length sheets.old }
    ensures only { OnlySheet p sheets.old sheets.new }
    ensures kept { drop 64 work.new ≡ drop 64 work.old }
    ensures shown { (n : ℕ) (m : LaneMap R.Member) → PlanStands R.kind n m records.entry.sides.now records.entry.pieces.now (map R.means lanes.now) (map R.means sheets.old) → PartsRight R.kind n (ends_of records.entry.sides.now) records.entry.pieces.now m (map R.means sheets.old) p → p + 5 < 2 * n → PieceShown R.kind n (ends_of records.entry.sides.now) records.entry.pieces.now m (map R.means sheets.new) p }
{
    sheet_into(records, lanes, sheets, p, work);
    put_sheet(work, p, sheets);
}
