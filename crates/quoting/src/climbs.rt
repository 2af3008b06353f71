// A line climbed over seams, from a piece to the pieces above it.
ghost use Rattle.std.specs.Prelude.{◌≡◌, ℕ, ◌+◌, ◌*◌, ◌<◌, ◌≤◌, map};
ghost use Rattle.trips.specs.Trips.{LaneMap};
ghost use Rattle.piece_rates.specs.Sizes.{largest, Within};
ghost use Rattle.quoting.specs.Areas.{is_into, LineAt, PlanInOrder, ReachesFrom, TouchesPiece};
ghost use Rattle.quoting.specs.Climbs.{CanJoin, climb_of, climb_place_of, SheetWithin};
ghost use Rattle.quoting.specs.Places.{by_ends_at, by_half_at, by_seam_at, climbed_at, IsLineOf, shown, to_high_at, to_low_at};

use crate::areas::Areas;
use crate::lines::{Direction, Line, first_line};
use crate::steps::{Half, Step, step_from};
use crate::walks::start_below;
use holders::MOST_HOLDERS;
use rates::kind::Rate;
use rates::many::better_of_two;
use sheets::better_joined;

// The rates between a terminal and the two ends of a seam.
#[derive(Clone, Copy)]
pub struct ToSeam<R> {
    pub low: R,
    pub high: R,
}

impl<R: Rate> ToSeam<R> {
    // By either end of the seam, and on from the ends at these rates.
    fn by_ends(&self, low: R, high: R) -> R
        ensures { R.kind.size (R.means self.now.low) ≤ 2 * largest → R.kind.size (R.means self.now.high) ≤ 2 * largest → R.kind.size (R.means low) ≤ largest → R.kind.size (R.means high) ≤ largest → R.means result ≡ by_ends_at R.kind (R.means self.now.low) (R.means self.now.high) (R.means low) (R.means high) }
    {
        better_joined(self.low.join(low), self.high, high)
    }
}

impl Step {
    // From a terminal to the ends of the seam: straight, or to the other end and back through the piece across.
    fn to_seam<R: Rate>(self, areas: Areas<'_, R>, direction: Direction, line: Line<R>) -> ToSeam<R>
        ensures low { Within R.kind (shown R.means line) → SheetWithin R.kind R.means areas.entry self.across.piece → R.means result.low ≡ to_low_at R.kind (shown R.means line) (map R.means areas.entry.sheets.now) self (is_into direction) }
        ensures high { Within R.kind (shown R.means line) → SheetWithin R.kind R.means areas.entry self.across.piece → R.means result.high ≡ to_high_at R.kind (shown R.means line) (map R.means areas.entry.sheets.now) self (is_into direction) }
    {
        let across = self.across;
        let low = line.at(self.own.low);
        let high = line.at(self.own.high);
        let down = areas.cell(across.piece, direction, across.high, across.low);
        let up = areas.cell(across.piece, direction, across.low, across.high);
        ToSeam {
            low: better_joined(low, high, down),
            high: better_joined(high, low, up),
        }
    }

    // From one terminal to another by the seam, where the second line is at a piece beside it.
    pub(crate) fn by_seam<R: Rate>(
        self,
        areas: Areas<'_, R>,
        row: Line<R>,
        there: Half,
        column: Line<R>,
    ) -> R
        ensures { Within R.kind (shown R.means row) → Within R.kind (shown R.means column) → SheetWithin R.kind R.means areas.entry self.across.piece → R.means result ≡ by_seam_at R.kind (shown R.means row) (map R.means areas.entry.sheets.now) self there (shown R.means column) }
    {
        let ends = self.to_seam(areas, Direction::From, row);
        ends.by_ends(column.at(there.low), column.at(there.high))
    }
}

// A line on its way over the seam of a step, at these rates to the seam's ends.
#[derive(Clone, Copy)]
pub struct Climb<R> {
    pub step: Step,
    pub direction: Direction,
    pub line: Line<R>,
    pub ends: ToSeam<R>,
}

impl<R: Rate> Climb<R> {
    // By either end of the seam, and on through a piece beside it to its edge terminal k.
    fn by_half(&self, areas: Areas<'_, R>, half: Half, k: usize) -> R
        ensures { R.kind.size (R.means self.now.ends.low) ≤ 2 * largest → R.kind.size (R.means self.now.ends.high) ≤ 2 * largest → SheetWithin R.kind R.means areas.entry half.piece → R.means result ≡ by_half_at R.kind (R.means self.now.ends.low) (R.means self.now.ends.high) (map R.means areas.entry.sheets.now) half (is_into self.now.direction) k }
    {
        let low = areas.cell(half.piece, self.direction, half.low, k);
        let high = areas.cell(half.piece, self.direction, half.high, k);
        self.ends.by_ends(low, high)
    }

    // To the edge terminal t of the piece climbed to; none where neither piece beside the seam has it.
    fn rate(&self, areas: Areas<'_, R>, t: u16) -> R
        ensures { CanJoin R.kind R.means areas.entry self.now → R.means result ≡ climb_of R.kind R.means areas.entry self.now t }
    {
        let own = self.step.own;
        let across = self.step.across;
        if let Some(k) = own.edges.position(t) {
            better_of_two(self.line.at(k), self.by_half(areas, own, k))
        } else if let Some(k) = across.edges.position(t) {
            self.by_half(areas, across, k)
        } else {
            R::none()
        }
    }

    // To the edge terminal k of the piece climbed to; none past the last.
    fn place(&self, areas: Areas<'_, R>, k: usize) -> R
        ensures { CanJoin R.kind R.means areas.entry self.now → R.means result ≡ climb_place_of R.kind R.means areas.entry self.now k }
    {
        let edges = self.step.edges;
        match edges.as_slice().get(k) {
            Some(t) => self.rate(areas, *t),
            None => R::none(),
        }
    }
}

// The line of the piece climbed to.
pub(crate) fn climbed<R: Rate>(
    areas: Areas<'_, R>,
    step: Step,
    direction: Direction,
    line: Line<R>,
) -> Line<R>
    ensures { Within R.kind (shown R.means line) → SheetWithin R.kind R.means areas.entry step.own.piece → SheetWithin R.kind R.means areas.entry step.across.piece → IsLineOf R.kind (shown R.means result) (climbed_at R.kind (shown R.means line) (map R.means areas.entry.sheets.now) step (is_into direction)) }
{
    let climb = Climb {
        step,
        direction,
        line,
        ends: step.to_seam(areas, direction, line),
    };
    Line::of(
        |k| -> R
            ensures { CanJoin R.kind R.means areas.entry climb → R.means result ≡ climb_place_of R.kind R.means areas.entry climb k }
        { climb.place(areas, k) },
    )
}

// The line at the piece `stop` from that at a piece at or below it.
fn climb_to<R: Rate>(
    areas: Areas<'_, R>,
    from: u16,
    stop: u16,
    direction: Direction,
    line: Line<R>,
) -> Line<R>
    ensures { (n : ℕ) (m : LaneMap R.Member) (u : ℕ) → PlanInOrder R.kind R.means areas.entry n m → ReachesFrom areas.entry n stop u from → LineAt R.kind R.means areas.entry n m from direction u line → LineAt R.kind R.means areas.entry n m stop direction u result }
{
    let mut p = from;
    let mut reached = line;
    for _ in 0..MOST_HOLDERS {
        if p == stop {
            return reached;
        }
        let Some(step) = step_from(areas.records, p) else {
            return reached;
        };
        reached = climbed(areas, step, direction, reached);
        p = step.up;
    }
    reached
}

// The line of the terminal u at the piece p.
pub(crate) fn line_at<R: Rate>(areas: Areas<'_, R>, p: u16, direction: Direction, u: u16) -> Line<R>
    ensures { (n : ℕ) (m : LaneMap R.Member) → PlanInOrder R.kind R.means areas.entry n m → p + 5 < 2 * n → TouchesPiece areas.entry n p u → LineAt R.kind R.means areas.entry n m p direction u result }
{
    let start = start_below(areas.records, p, u);
    climb_to(
        areas,
        start,
        p,
        direction,
        first_line(areas, start, direction, u),
    )
}
