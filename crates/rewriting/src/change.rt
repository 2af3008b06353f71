// A lane's rate changed, and the sheets that show it.
ghost use Rattle.std.specs.Prelude.{◌≡◌, ℕ, ◌+◌, ◌*◌, ◌<◌, ◌≤◌, ◌↔◌, IsOk, IsErr, IsOkAnd, OnErr, map, length};
ghost use Rattle.trips.specs.Trips.{LaneMap};
ghost use Rattle.pieces.specs.Sides.{ends_of};
ghost use Rattle.piece_rates.specs.Changes.{InOrder, lane_place, LaneChanged, MayChange};
ghost use Rattle.rewriting.specs.Ways.{leaf_of, LaneRewritten, Room, Untouched};

use crate::up::{NoRoom, check_sheet, rewrite_up};
use holders::Records;
use rates::kind::Rate;

// The lane along a side, from its low end to its high end or back.
#[derive(Clone, Copy, Debug, PartialEq, Eq)]
pub struct Lane {
    pub side: u16,
    pub back: bool,
}

impl Lane {
    // Its place in the lane area.
    pub fn place(self) -> usize
        ensures { result ≡ lane_place self.side self.back }
    {
        2 * self.side as usize + usize::from(self.back)
    }
}

// Refuses where the side of a lane, its two lanes, the sheet of its leaf piece or 64 work rates are missing.
fn check_lane(
    records: Records,
    lanes: usize,
    sheets: usize,
    work: usize,
    side: u16,
) -> Result<(), NoRoom>
    ensures { IsOk result ↔ Room records.entry.sides.now lanes sheets work side }
{
    let side_there = (side as usize) < records.sides.len();
    let lanes_there = 2 * side as usize + 1 < lanes;
    if !(side_there & lanes_there) {
        return Err(NoRoom);
    }
    check_sheet(sheets, work, records.side(side as u32).leaf)
}

// Gives a lane a rate, and makes the sheets of the pieces that hold the lane anew: how many they are.
// Where the side, its lanes or the room is missing, nothing is written.
// Sheets and work are two parameters: two areas lent by the fields of one lent struct cannot be passed on in one call.
pub fn change_lane<R: Rate>(
    records: Records,
    lanes: &mut [R],
    sheets: &mut [R],
    work: &mut [R],
    lane: Lane,
    rate: R,
) -> Result<usize, NoRoom>
    ensures rewritten { Room records.entry.sides.now (length lanes.old) (length sheets.old) (length work.old) lane.side → IsOkAnd result (λ count. LaneRewritten records.entry.sides.now records.entry.pieces.now lane.side lane.back rate lanes.old sheets.old work.old count lanes.new sheets.new work.new) }
    ensures refused { (Room records.entry.sides.now (length lanes.old) (length sheets.old) (length work.old) lane.side → ⊥) → IsErr result }
    ensures untouched { OnErr result ((lanes.new ≡ lanes.old) × Untouched sheets.old work.old sheets.new work.new) }
    ensures changed { (n : ℕ) (m : LaneMap R.Member) → 64 ≤ length work.old → InOrder R.kind n m records.entry.sides.now records.entry.pieces.now (map R.means lanes.old) (map R.means sheets.old) → MayChange R.kind n (ends_of records.entry.sides.now) m lane.side lane.back (R.means rate) → IsOkAnd result (λ count. LaneChanged R.kind n m records.entry.sides.now records.entry.pieces.now lane.side lane.back (R.means rate) (map R.means lanes.new) (map R.means sheets.old) (map R.means sheets.new) count) }
{
    check_lane(records, lanes.len(), sheets.len(), work.len(), lane.side)?;
    lanes[lane.place()] = rate;
    let leaf = records.side(lane.side as u32).leaf;
    rewrite_up(records, lanes, sheets, work, leaf)
}
