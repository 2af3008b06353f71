// Lines of best rates between a terminal and a piece's edge terminals: why they climb from a piece to its parent and meet there.
// Each function's contract is a theorem that layers above cite.
#![tactic(auto)]

ghost use Rattle.climbing.specs.Lines.{LinesAreWithin, LinesClimb, LinesMeet, SheetsHaveLines, TrianglesHaveLines};
ghost use Rattle.climbing.specs.Steps.{PartedBetweenChildren, StepsKeep};
ghost use Rattle.climbing.specs.Ways.{WaysDown, WaysPart, WaysUp};

use rates::kind::Rate;

// A line climbed over a seam shows the best rates over both parts; two lines give the best rate between their terminals.
pub fn lines_climb<R: Rate>()
    ensures climb { LinesClimb R.kind }
    ensures meet { LinesMeet R.kind }
    ensures within { LinesAreWithin R.kind }
{}

// The rows and columns of a sheet are lines, and so are the best rates within a triangle.
pub fn lines_begin<R: Rate>()
    ensures sheets { SheetsHaveLines R.kind }
    ensures triangles { TrianglesHaveLines R.kind }
{}

// A way down towards one terminal or two stays with pieces that touch them, or parts; the way up comes back.
pub fn ways_found()
    ensures down { WaysDown }
    ensures part { WaysPart }
    ensures up { WaysUp }
    ensures parted { PartedBetweenChildren }
{}

// In a plan in order, lines climb from each piece to its parent and meet there.
pub fn steps_keep<R: Rate>()
    ensures { StepsKeep R.kind }
{}
