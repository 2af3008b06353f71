// A parent's sheet from its children's: each row is a climb.
ghost use Rattle.std.specs.Prelude.{◌≡◌, ℕ, ◌+◌, ◌*◌, ◌<◌, ◌≤◌, cond, map, length, drop, nat_lt, slice_index};
ghost use Rattle.pieces.specs.Sides.{Ends};
ghost use Rattle.records.specs.Few.{listed};
ghost use Rattle.trips.specs.Trips.{LaneMap};
ghost use Rattle.piece_rates.specs.Climbing.{place};
ghost use Rattle.piece_rates.specs.Parents.{ParentSheet, PartsShown};
ghost use Rattle.piece_rates.specs.Sheets.{SheetShows};
ghost use Rattle.piece_rates.specs.Sizes.{largest, Within};
ghost use Rattle.sheets.specs.Places.{by_seam_at, climb_at, climbed_at, ParentRow, PartShows, Row, to_seam_at};

use crate::cells::{ROW, SHEET, better_joined, cell_at, clear_rates, write_each};
use rates::kind::Rate;
use rates::many::better_of_two;
use records::{Few, Piece};

// A piece, its two parts, and the ends of the seam between them.
#[derive(Clone, Copy)]
pub struct Cut {
    pub piece: Piece,
    pub first: Piece,
    pub second: Piece,
    pub low: u16,
    pub high: u16,
}

// Where the seam's ends and the cut piece's edge terminals stand among a part's own, of which there are `count`;
// for those that do not stand there, `count`.
#[derive(Clone, Copy)]
pub struct Part {
    pub low: u8,
    pub high: u8,
    pub count: u8,
    pub at: [u8; 8],
}

// The place of a terminal; the number of terminals where it is not there.
pub fn place_of(edges: Few, terminal: u16) -> u8
    ensures { result ≡ place (listed edges) terminal }
{
    // The count, and no `None`: the promises of a climb read sheets at this number.
    edges.position(terminal).unwrap_or(edges.len()) as u8
}

// The places of a piece's edge terminals among those of a part.
fn places_of(edges: Few, terminals: Few) -> [u8; 8]
    ensures { (k : ℕ) → k < length (listed terminals) → slice_index result k ≡ place (listed edges) (slice_index (listed terminals) k) }
{
    let mut at = [0; 8];
    // No `array::from_fn`: it searches for eight terminals, where most pieces have two to four.
    for (k, terminal) in terminals.as_slice().iter().enumerate() {
        at[k] = place_of(edges, *terminal);
    }
    at
}

// A part as a climb needs it.
fn part_of(cut: Cut, edges: Few) -> Part
    ensures { PartShows (listed cut.piece.edges) (listed edges) cut.low cut.high result }
{
    Part {
        low: place_of(edges, cut.low),
        high: place_of(edges, cut.high),
        count: edges.len() as u8,
        at: places_of(edges, cut.piece.edges),
    }
}

// A part's sheet, and the part as a climb needs it.
#[derive(Clone, Copy)]
struct PartSheet<'a, R> {
    sheet: &'a [R],
    part: Part,
}

// The rates to the low and to the high end of a seam.
#[derive(Clone, Copy)]
struct ToSeam<R> {
    low: R,
    high: R,
}

// From a part's edge terminal i to an end of the seam: straight, or to the other end and back through the other part.
// An end comes as its places in the two parts.
fn to_seam<R: Rate>(own: &[R], other: &[R], i: u8, to: (u8, u8), round: (u8, u8)) -> R
    ensures { Within R.kind (map R.means own.now) → Within R.kind (map R.means other.now) → R.means result ≡ to_seam_at R.kind (map R.means own.now) (map R.means other.now) i to round }
{
    better_joined(
        cell_at(own, i, to.0),
        cell_at(own, i, round.0),
        cell_at(other, round.1, to.1),
    )
}

// From the edge terminal i of a part to both ends of the seam.
fn to_ends<R: Rate>(own: PartSheet<R>, other: PartSheet<R>, i: u8) -> ToSeam<R>
    ensures low { Within R.kind (map R.means own.entry.sheet.now) → Within R.kind (map R.means other.entry.sheet.now) → R.means result.low ≡ to_seam_at R.kind (map R.means own.entry.sheet.now) (map R.means other.entry.sheet.now) i (own.entry.part.low, other.entry.part.low) (own.entry.part.high, other.entry.part.high) }
    ensures high { Within R.kind (map R.means own.entry.sheet.now) → Within R.kind (map R.means other.entry.sheet.now) → R.means result.high ≡ to_seam_at R.kind (map R.means own.entry.sheet.now) (map R.means other.entry.sheet.now) i (own.entry.part.high, other.entry.part.high) (own.entry.part.low, other.entry.part.low) }
{
    let low = (own.part.low, other.part.low);
    let high = (own.part.high, other.part.high);
    ToSeam {
        low: to_seam(own.sheet, other.sheet, i, low, high),
        high: to_seam(own.sheet, other.sheet, i, high, low),
    }
}

// By either end of the seam, at the rates to them, and through a part to its edge terminal j.
fn by_seam<R: Rate>(to: ToSeam<R>, through: PartSheet<R>, j: u8) -> R
    ensures { Within R.kind (map R.means through.entry.sheet.now) → R.kind.size (R.means to.low) ≤ 2 * largest → R.kind.size (R.means to.high) ≤ 2 * largest → R.means result ≡ by_seam_at R.kind (R.means to.low) (R.means to.high) (map R.means through.entry.sheet.now) (through.entry.part.low, through.entry.part.high) j }
{
    better_joined(
        to.low.join(cell_at(through.sheet, through.part.low, j)),
        to.high,
        cell_at(through.sheet, through.part.high, j),
    )
}

// The climb from the edge terminal i of the own part to the edge terminal k of the cut piece, given the rates to the seam's ends.
fn climb_to<R: Rate>(own: PartSheet<R>, other: PartSheet<R>, to: ToSeam<R>, i: u8, k: usize) -> R
    requires { k < 8 }
    ensures { Within R.kind (map R.means own.entry.sheet.now) → Within R.kind (map R.means other.entry.sheet.now) → R.kind.size (R.means to.low) ≤ 2 * largest → R.kind.size (R.means to.high) ≤ 2 * largest → R.means result ≡ climb_at R.kind own.entry.part other.entry.part (map R.means own.entry.sheet.now) (map R.means other.entry.sheet.now) (R.means to.low) (R.means to.high) i k }
{
    let j = own.part.at[k];
    if j < own.part.count {
        better_of_two(cell_at(own.sheet, i, j), by_seam(to, own, j))
    } else {
        by_seam(to, other, other.part.at[k])
    }
}

// The place k of a row: the climb to the edge terminal k, and none from `count` on.
fn row_at<R: Rate>(
    own: PartSheet<R>,
    other: PartSheet<R>,
    to: ToSeam<R>,
    i: u8,
    count: usize,
    k: usize,
) -> R
    requires { k < 8 }
    ensures { Within R.kind (map R.means own.entry.sheet.now) → Within R.kind (map R.means other.entry.sheet.now) → R.kind.size (R.means to.low) ≤ 2 * largest → R.kind.size (R.means to.high) ≤ 2 * largest → R.means result ≡ cond (nat_lt k count) (climb_at R.kind own.entry.part other.entry.part (map R.means own.entry.sheet.now) (map R.means other.entry.sheet.now) (R.means to.low) (R.means to.high) i k) R.kind.none }
{
    if k < count {
        climb_to(own, other, to, i, k)
    } else {
        R::none()
    }
}

// A row of the cut piece's sheet: the climb from the edge terminal i of the own part to each of its `count` edge terminals.
fn climb_row<R: Rate>(own: PartSheet<R>, other: PartSheet<R>, i: u8, count: usize, row: &mut [R])
    requires { length row.old ≡ 8 }
    ensures { Within R.kind (map R.means own.entry.sheet.now) → Within R.kind (map R.means other.entry.sheet.now) → Row R.kind count (climbed_at R.kind own.entry.part other.entry.part (map R.means own.entry.sheet.now) (map R.means other.entry.sheet.now) i) (map R.means row.new) }
{
    let to = to_ends(own, other, i);
    write_each(row, |k| row_at(own, other, to, i, count, k));
}

// The row of the edge terminal i of the cut piece: the climb from where it stands in the first part that has it.
fn parent_row<R: Rate>(a: PartSheet<R>, b: PartSheet<R>, count: usize, i: usize, row: &mut [R])
    requires a_row { i < 8 }
    requires eight_places { length row.old ≡ 8 }
    ensures { Within R.kind (map R.means a.entry.sheet.now) → Within R.kind (map R.means b.entry.sheet.now) → ParentRow R.kind count a.entry.part b.entry.part (map R.means a.entry.sheet.now) (map R.means b.entry.sheet.now) i (map R.means row.new) }
{
    if i >= count {
        clear_rates(row);
    } else if a.part.at[i] < a.part.count {
        climb_row(a, b, a.part.at[i], count, row);
    } else {
        climb_row(b, a, b.part.at[i], count, row);
    }
}

// Writes the sheet of a cut piece from those of its parts, of 64 rates each. Nothing is written where the sheet is shorter.
pub fn write_parent<R: Rate>(cut: Cut, a: &[R], b: &[R], sheet: &mut [R])
    ensures written { 64 ≤ length sheet.old → Within R.kind (map R.means a.now) → Within R.kind (map R.means b.now) → ParentSheet R.kind cut.piece cut.first cut.second cut.low cut.high (map R.means a.now) (map R.means b.now) (map R.means sheet.new) }
    ensures shows { (n : ℕ) (e : Ends) (m : LaneMap R.Member) → 64 ≤ length sheet.old → length a.now ≤ 64 → length b.now ≤ 64 → PartsShown R.kind n e m cut.piece cut.first cut.second cut.low cut.high (map R.means a.now) (map R.means b.now) → SheetShows R.kind n e cut.piece m (map R.means sheet.new) }
    ensures kept { drop 64 sheet.new ≡ drop 64 sheet.old }
    ensures short { length sheet.old < 64 → sheet.new ≡ sheet.old }
{
    if sheet.len() < SHEET {
        return;
    }
    let first = PartSheet {
        sheet: a,
        part: part_of(cut, cut.first.edges),
    };
    let second = PartSheet {
        sheet: b,
        part: part_of(cut, cut.second.edges),
    };
    let count = cut.piece.edges.len();
    // By index: `chunks_exact_mut(ROW).enumerate()` was tried; when the loan of a row ends, a proof knows its length and not its rates.
    for i in 0..ROW {
        parent_row(first, second, count, i, &mut sheet[ROW * i..ROW * i + ROW]);
    }
}
