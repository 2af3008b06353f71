// The sheets on a way up, made anew from the lowest on.
ghost use Rattle.std.specs.Prelude.{◌≡◌, ℕ, ◌+◌, ◌*◌, ◌<◌, ◌≤◌, ◌⊎◌, ◌↔◌, IsOk, IsErr, IsOkAnd, OnErr, map, length};
ghost use Rattle.trips.specs.Trips.{LaneMap};
ghost use Rattle.pieces.specs.Sides.{ends_of};
ghost use Rattle.piece_rates.specs.Changes.{AllShown, OffWayShown, PlanStands};
ghost use Rattle.rewriting.specs.Ways.{SheetRoom, Untouched, WayRewritten};

use crate::one::rewrite_sheet;
use holders::{MOST_HOLDERS, Records, parent_of};
use rates::kind::Rate;
use sheets::SHEET;

// There is no such side, or an area is too short.
#[derive(Clone, Copy, Debug, PartialEq, Eq)]
pub struct NoRoom;

// Refuses areas without the sheet of the piece p or without 64 work rates.
pub(crate) fn check_sheet(sheets: usize, work: usize, p: u16) -> Result<(), NoRoom>
    ensures { IsOk result ↔ SheetRoom sheets work p }
{
    if (work < SHEET) | (sheets < SHEET * p as usize + SHEET) {
        return Err(NoRoom);
    }
    Ok(())
}

// Makes the sheets of the piece `from` and of those above it anew, each from the sheets of its parts, and says how many they are.
// Without room for 64 work rates and for the sheet of `from` nothing is written.
// Sheets and work are two parameters: two areas lent by the fields of one lent struct cannot be passed on in one call.
pub fn rewrite_up<R: Rate>(
    records: Records,
    lanes: &[R],
    sheets: &mut [R],
    work: &mut [R],
    from: u16,
) -> Result<usize, NoRoom>
    ensures rewritten { SheetRoom (length sheets.old) (length work.old) from → IsOkAnd result (λ count. WayRewritten records.entry.pieces.now from sheets.old work.old count sheets.new work.new) }
    ensures refused { (length work.old < 64) ⊎ (length sheets.old < 64 * from + 64) → IsErr result }
    ensures untouched { OnErr result (Untouched sheets.old work.old sheets.new work.new) }
    ensures shown { (n : ℕ) (m : LaneMap R.Member) → 64 ≤ length work.old → PlanStands R.kind n m records.entry.sides.now records.entry.pieces.now (map R.means lanes.now) (map R.means sheets.old) → from + 5 < 2 * n → OffWayShown R.kind n (ends_of records.entry.sides.now) records.entry.pieces.now m (map R.means sheets.old) 41 from → AllShown R.kind n (ends_of records.entry.sides.now) records.entry.pieces.now m (map R.means sheets.new) }
{
    check_sheet(sheets.len(), work.len(), from)?;
    let mut p = from;
    // By number: there is nothing to go over, and k is only how many sheets were made anew.
    for k in 0..MOST_HOLDERS {
        rewrite_sheet(records, lanes, sheets, work, p);
        match parent_of(records.pieces, p) {
            Some(parent) => p = parent,
            None => return Ok(k + 1),
        }
    }
    Ok(MOST_HOLDERS)
}
