// The best rate from one terminal to another within a piece.
ghost use Rattle.std.specs.Prelude.{◌≡◌, ℕ, ◌+◌, ◌*◌, ◌<◌};
ghost use Rattle.trips.specs.Trips.{BestRate, LaneMap};
ghost use Rattle.climbing.specs.Ways.{Ending};
ghost use Rattle.quoting.specs.Areas.{BestWithin, piece_of, PartsFrom, PlanInOrder, ReachesFrom, TouchesPiece};
ghost use Rattle.quoting.specs.Climbs.{IsStepFrom, KnownAt};

use crate::areas::Areas;
use crate::climbs::{climbed, line_at};
use crate::lines::{Direction, Line};
use crate::steps::{Step, places_of, step_from};
use crate::walks::{child_towards, ends_there, parting_below};
use holders::MOST_HOLDERS;
use rates::kind::Rate;
use rates::many::better_of_two;
use sheets::Triangle;

// What is known of two terminals at a piece: the line of the first, the line into the second, and the best rate between them.
#[derive(Clone, Copy)]
pub struct Known<R> {
    pub row: Line<R>,
    pub column: Line<R>,
    pub best: R,
}

// What is known at the piece climbed to: a trip that leaves the piece climbed from does so by the seam.
fn known_above<R: Rate>(areas: Areas<'_, R>, step: Step, known: Known<R>) -> Known<R>
    ensures { (n : ℕ) (m : LaneMap R.Member) (p u v : ℕ) → PlanInOrder R.kind R.means areas.entry n m → 0 < p → p + 5 < 2 * n → IsStepFrom areas.entry p step → TouchesPiece areas.entry n p u → TouchesPiece areas.entry n p v → KnownAt R.kind R.means areas.entry n m p u v known → KnownAt R.kind R.means areas.entry n m step.up u v result }
{
    let round = step.by_seam(areas, known.row, step.own, known.column);
    Known {
        row: climbed(areas, step, Direction::From, known.row),
        column: climbed(areas, step, Direction::Into, known.column),
        best: better_of_two(known.best, round),
    }
}

// The best rate at the piece `stop` from what is known at a piece at or below it.
fn pass_to<R: Rate>(areas: Areas<'_, R>, from: u16, stop: u16, known: Known<R>) -> R
    ensures { (n : ℕ) (m : LaneMap R.Member) (u v : ℕ) → PlanInOrder R.kind R.means areas.entry n m → ReachesFrom areas.entry n stop u from → ReachesFrom areas.entry n stop v from → KnownAt R.kind R.means areas.entry n m from u v known → BestWithin R.kind R.means areas.entry n m stop u v result }
{
    let mut p = from;
    let mut reached = known;
    for _ in 0..MOST_HOLDERS {
        if p == stop {
            return reached.best;
        }
        let Some(step) = step_from(areas.records, p) else {
            return reached.best;
        };
        reached = known_above(areas, step, reached);
        p = step.up;
    }
    reached.best
}

// The best rate within a piece that has both terminals as edge terminals or is a single triangle.
fn near_rate<R: Rate>(areas: Areas<'_, R>, p: u16, from: u16, to: u16) -> R
    ensures { (n : ℕ) (m : LaneMap R.Member) → PlanInOrder R.kind R.means areas.entry n m → p + 5 < 2 * n → Ending (piece_of areas.entry p) from to → BestWithin R.kind R.means areas.entry n m p from to result }
{
    let piece = areas.records.piece(p);
    match places_of(piece.edges, from, to) {
        Some((i, j)) => areas.cell(p, Direction::From, i, j),
        None => {
            let t = Triangle::on(areas.records.sides, areas.lanes, piece.top);
            t.best(from, to)
        }
    }
}

// The best rate at the piece `stop`, by way of a piece below it at which the way down towards both terminals ends.
fn joined_rate<R: Rate>(areas: Areas<'_, R>, p: u16, stop: u16, from: u16, to: u16) -> R
    ensures { (n : ℕ) (m : LaneMap R.Member) → PlanInOrder R.kind R.means areas.entry n m → PartsFrom areas.entry n stop from to p → Ending (piece_of areas.entry p) from to → BestWithin R.kind R.means areas.entry n m stop from to result }
{
    let best = near_rate(areas, p, from, to);
    if p == stop {
        return best;
    }
    let row = line_at(areas, p, Direction::From, from);
    let column = line_at(areas, p, Direction::Into, to);
    pass_to(areas, p, stop, Known { row, column, best })
}

// The best rate at the piece `stop`, by way of a piece below it that is parted between the two terminals.
fn parted_rate<R: Rate>(areas: Areas<'_, R>, p: u16, stop: u16, from: u16, to: u16) -> R
    ensures { (n : ℕ) (m : LaneMap R.Member) → PlanInOrder R.kind R.means areas.entry n m → PartsFrom areas.entry n stop from to p → (Ending (piece_of areas.entry p) from to → ⊥) → BestWithin R.kind R.means areas.entry n m stop from to result }
{
    let own = child_towards(areas.records, areas.records.piece(p), from);
    let Some(near) = step_from(areas.records, own) else {
        return R::none();
    };
    let Some(far) = step_from(areas.records, near.across.piece) else {
        return R::none();
    };
    let row = line_at(areas, own, Direction::From, from);
    let column = line_at(areas, near.across.piece, Direction::Into, to);
    let known = Known {
        row: climbed(areas, near, Direction::From, row),
        column: climbed(areas, far, Direction::Into, column),
        best: near.by_seam(areas, row, near.across, column),
    };
    pass_to(areas, p, stop, known)
}

// The best rate of the trips from one terminal of the piece `stop` to another over the lanes of that piece.
pub fn best_within<R: Rate>(areas: Areas<'_, R>, stop: u16, from: u16, to: u16) -> R
    ensures { (n : ℕ) (m : LaneMap R.Member) → PlanInOrder R.kind R.means areas.entry n m → stop + 5 < 2 * n → TouchesPiece areas.entry n stop from → TouchesPiece areas.entry n stop to → BestWithin R.kind R.means areas.entry n m stop from to result }
{
    if from == to {
        return R::still();
    }
    let p = parting_below(areas.records, stop, from, to);
    if ends_there(areas.records.piece(p), from, to) {
        joined_rate(areas, p, stop, from, to)
    } else {
        parted_rate(areas, p, stop, from, to)
    }
}

// The best rate of the trips from one terminal of the plan to another.
pub fn best_rate<R: Rate>(areas: Areas<'_, R>, from: u16, to: u16) -> R
    ensures { (n : ℕ) (m : LaneMap R.Member) → PlanInOrder R.kind R.means areas.entry n m → from < n → to < n → BestRate R.kind m from to (R.means result) }
{
    best_within(areas, 0, from, to)
}
