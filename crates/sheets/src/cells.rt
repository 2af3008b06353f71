// Single places of a sheet, and the step in which rates are joined.
ghost use Rattle.std.specs.Prelude.{◌≡◌, ℕ, ◌+◌, ◌<◌, ◌≤◌, map, length, slice_index_or};
ghost use Rattle.rates.specs.Kinds.{exact_size};
ghost use Rattle.rates.specs.Many.{better_of};
ghost use Rattle.sheets.specs.Places.{cell, EachPlace};

use rates::kind::Rate;
use rates::many::better_of_two;

// A sheet has a row of 8 places for each of up to 8 edge terminals.
pub const ROW: usize = 8;

pub const SHEET: usize = 64;

// The rate at a place of an area; none past its end.
pub fn rate_at<R: Rate>(area: &[R], place: usize) -> R
    ensures { R.means result ≡ slice_index_or (map R.means area.now) place R.kind.none }
{
    match area.get(place) {
        Some(rate) => *rate,
        None => R::none(),
    }
}

// The rate from the edge terminal i to the edge terminal j; none past the sheet's end.
pub(crate) fn cell_at<R: Rate>(sheet: &[R], i: u8, j: u8) -> R
    ensures { R.means result ≡ cell R.kind (map R.means sheet.now) i j }
{
    rate_at(sheet, ROW * i as usize + j as usize)
}

// The better of a rate and two others joined; exact while the sizes of the two add up to little enough.
pub fn better_joined<R: Rate>(best: R, one: R, other: R) -> R
    ensures { R.kind.size (R.means one) + R.kind.size (R.means other) ≤ exact_size → R.means result ≡ better_of R.kind (R.means best) (R.kind.join (R.means one) (R.means other)) }
{
    better_of_two(best, one.join(other))
}

// Writes f(k) at each place k of an area.
pub(crate) fn write_each<R: Copy, F: Fn(usize) -> R>(area: &mut [R], f: F)
    requires { (k : ℕ) → k < length area.old → F.pre f k }
    ensures { EachPlace (F.post f) area.new }
{
    for (k, place) in area.iter_mut().enumerate() {
        *place = f(k);
    }
}

// None at each place of an area.
pub fn clear_rates<R: Rate>(area: &mut [R])
    ensures { (k : ℕ) → slice_index_or (map R.means area.new) k R.kind.none ≡ R.kind.none }
{
    write_each(area, |_| R::none());
}
