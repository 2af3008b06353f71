// Best rates within the pieces of a plan: what a sheet shows, and why a leaf's sheet follows from its lanes and a parent's
// from its children's. Each function's contract is a theorem that layers above cite.
#![tactic(auto)]

ghost use Rattle.piece_rates.specs.Division.{CutsHaveShape};
ghost use Rattle.piece_rates.specs.Leaves.{LeafShows};
ghost use Rattle.piece_rates.specs.Parents.{ParentShows, ShownIsWithin};

use rates::kind::Rate;

// In a division of a filled ring each cut piece meets the premises of a climb, with the ends of its seam.
pub fn cuts_have_shape()
    ensures { CutsHaveShape }
{}

// The climbs over two parts' sheets that show their best rates show the best rates of the whole; no rate in them is too large.
pub fn parents_show<R: Rate>()
    ensures shows { ParentShows R.kind }
    ensures within { ShownIsWithin R.kind }
{}

// A leaf's sheet from the lanes of its triangle shows the leaf's best rates.
pub fn leaves_show<R: Rate>()
    ensures { LeafShows R.kind }
{}
