// Rates between one terminal and the edge terminals of a piece.
ghost use Rattle.std.specs.Prelude.{◌≡◌, ℕ, ◌+◌, ◌*◌, ◌<◌, ◌≤◌, ◌⊎◌, map, length, slice_index_or};
ghost use Rattle.trips.specs.Trips.{LaneMap};
ghost use Rattle.records.specs.Few.{Among, listed};
ghost use Rattle.piece_rates.specs.Leaves.{LanesWithin};
ghost use Rattle.sheets.specs.Triangles.{triangle_best, triangle_lanes};
ghost use Rattle.climbing.specs.Lines.{turned};
ghost use Rattle.quoting.specs.Areas.{is_into, LineAt, piece_of, PlanInOrder};
ghost use Rattle.quoting.specs.Places.{cell_at, IsLineOf, shown, triangle_place_at};

use crate::areas::Areas;
use rates::kind::Rate;
use records::Few;
use sheets::Triangle;

// Which way rates run: from the terminal of a line to edge terminals, or from these into the terminal.
#[derive(Clone, Copy)]
pub enum Direction {
    From,
    Into,
}

// Rates between a terminal and up to eight edge terminals of a piece, by their places.
// Eight named fields: with an array, generic callers would owe that its size fits the memory, and no proof of that closes.
#[derive(Clone, Copy)]
pub struct Line<R> {
    r0: R,
    r1: R,
    r2: R,
    r3: R,
    r4: R,
    r5: R,
    r6: R,
    r7: R,
}

impl<R: Rate> Line<R> {
    // The rate at the place k; none past the last.
    pub(crate) fn at(&self, k: usize) -> R
        ensures { R.means result ≡ slice_index_or (shown R.means self.now) k R.kind.none }
    {
        match k {
            0 => self.r0,
            1 => self.r1,
            2 => self.r2,
            3 => self.r3,
            4 => self.r4,
            5 => self.r5,
            6 => self.r6,
            7 => self.r7,
            _ => R::none(),
        }
    }

    // The line with these rates at its places.
    pub(crate) fn of<F: Fn(usize) -> R>(rate: F) -> Line<R>
        requires { F.IsAlwaysCallable rate }
        ensures short { length (shown R.means result) ≤ 8 }
        ensures places { (k : ℕ) → k < 8 → (r : R) × F.post rate k r × (slice_index_or (shown R.means result) k R.kind.none ≡ R.means r) }
    {
        Line {
            r0: rate(0),
            r1: rate(1),
            r2: rate(2),
            r3: rate(3),
            r4: rate(4),
            r5: rate(5),
            r6: rate(6),
            r7: rate(7),
        }
    }
}

// The row i of the sheet of the piece p, or its column i.
fn sheet_line<R: Rate>(areas: Areas<'_, R>, p: u16, direction: Direction, i: usize) -> Line<R>
    ensures { IsLineOf R.kind (shown R.means result) (cell_at R.kind (map R.means areas.entry.sheets.now) p (is_into direction) i) }
{
    Line::of(
        |k| -> R
            ensures { R.means result ≡ cell_at R.kind (map R.means areas.entry.sheets.now) p (is_into direction) i k }
        { areas.cell(p, direction, i, k) },
    )
}

// The best rate within a triangle between u and v: from u to v, or into u from v.
fn triangle_rate<R: Rate>(t: Triangle<R>, direction: Direction, u: u16, v: u16) -> R
    ensures { LanesWithin R.kind (triangle_lanes R.kind R.means t) → R.means result ≡ turned (is_into direction) (triangle_best R.kind R.means t) u v }
{
    match direction {
        Direction::From => t.best(u, v),
        Direction::Into => t.best(v, u),
    }
}

// The best rate within a triangle between u and the edge terminal k; none past the last.
fn triangle_place<R: Rate>(t: Triangle<R>, edges: Few, direction: Direction, u: u16, k: usize) -> R
    ensures { LanesWithin R.kind (triangle_lanes R.kind R.means t) → R.means result ≡ triangle_place_at R.kind R.means t (listed edges) (is_into direction) u k }
{
    match edges.as_slice().get(k) {
        Some(v) => triangle_rate(t, direction, u, *v),
        None => R::none(),
    }
}

// The best rates within a triangle between the terminal u and edge terminals.
fn triangle_line<R: Rate>(t: Triangle<R>, edges: Few, direction: Direction, u: u16) -> Line<R>
    ensures { LanesWithin R.kind (triangle_lanes R.kind R.means t) → IsLineOf R.kind (shown R.means result) (triangle_place_at R.kind R.means t (listed edges) (is_into direction) u) }
{
    Line::of(
        |k| -> R
            ensures { LanesWithin R.kind (triangle_lanes R.kind R.means t) → R.means result ≡ triangle_place_at R.kind R.means t (listed edges) (is_into direction) u k }
        { triangle_place(t, edges, direction, u, k) },
    )
}

// The line of the terminal u at a piece that has it as an edge terminal or is a single triangle.
pub(crate) fn first_line<R: Rate>(
    areas: Areas<'_, R>,
    p: u16,
    direction: Direction,
    u: u16,
) -> Line<R>
    ensures { (n : ℕ) (m : LaneMap R.Member) → PlanInOrder R.kind R.means areas.entry n m → p + 5 < 2 * n → ((piece_of areas.entry p).first ≡ 0) ⊎ Among u (listed (piece_of areas.entry p).edges) → LineAt R.kind R.means areas.entry n m p direction u result }
{
    let piece = areas.records.piece(p);
    match piece.edges.position(u) {
        Some(i) => sheet_line(areas, p, direction, i),
        None => {
            let t = Triangle::on(areas.records.sides, areas.lanes, piece.top);
            triangle_line(t, piece.edges, direction, u)
        }
    }
}
