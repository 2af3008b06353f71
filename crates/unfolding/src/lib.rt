// Best trips found by unfolding: a part of a trip within a piece is split at the piece's seam into parts within its children,
// down to single triangles. Each function's contract is a theorem that layers above cite.
#![tactic(auto)]

ghost use Rattle.unfolding.specs.Splitting.{BestWithinExists, LeafStopsAreBest, SplitKeepsTheRate};
ghost use Rattle.unfolding.specs.Turns.{FewParts, PartsUnfold, TurnByTurn};

use rates::kind::Rate;

// In a plan in order there is a best rate within each piece between any two of its terminals.
pub fn best_within_exists<R: Rate>()
    ensures { BestWithinExists R.kind }
{}

// A part of a cut piece is split into at most three parts of its children; they follow on one another and have its rate.
pub fn split_keeps_the_rate<R: Rate>()
    ensures { SplitKeepsTheRate R.kind }
{}

// Within one triangle the lane, or the two lanes by the third corner, have the part's rate.
pub fn leaf_stops_are_best<R: Rate>()
    ensures { LeafStopsAreBest R.kind }
{}

// A part unfolds in one way, to the stops of a best trip.
pub fn parts_unfold<R: Rate>()
    ensures { PartsUnfold R.kind }
{}

// A part unfolds in at most five turns for each piece of the plan.
pub fn few_parts<R: Rate>()
    ensures { FewParts R.kind }
{}

// What one turn of unfolding takes away and leaves.
pub fn turn_by_turn<R: Rate>()
    ensures { TurnByTurn R.kind }
{}
