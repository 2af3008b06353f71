// The theory of cutting a filled ring into pieces, without code: each function carries a theorem in its contract.
#![tactic(auto)]

ghost use Rattle.pieces.specs.Geometry.{SeamsPartLanes};
ghost use Rattle.pieces.specs.Holders.{HoldersOnWayUp, WayUpComplete};
ghost use Rattle.pieces.specs.Statements.{OneListOfRecords, RecordsDivide};

// The records that cutting leaves are a division of the filled ring.
pub fn records_divide()
    ensures { RecordsDivide }
{}

// Sides with the same ends leave the same piece records.
pub fn one_list_of_records()
    ensures { OneListOfRecords }
{}

// The pieces that hold a triangle are the uncut one that does and those above it.
pub fn holders_on_way_up()
    ensures { HoldersOnWayUp }
{}

// The way up from a piece lists it and the pieces above it, at most 41.
pub fn way_up_complete()
    ensures { WayUpComplete }
{}

// For a seam with ends x < y the lanes of the inner part have both ends in [x, y] and those of the outer none strictly between;
// the edge terminals of a piece are among its children's, and x and y are edge terminals of both.
pub fn seams_part_lanes()
    ensures { SeamsPartLanes }
{}
