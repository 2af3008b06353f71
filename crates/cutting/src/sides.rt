// Reading side records: ends, lengths and children, by index.
ghost use Rattle.std.specs.Prelude.{◌≡◌, ◌+◌, ◌*◌};
ghost use Rattle.pieces.specs.Cuts.{cap, left, right};
ghost use Rattle.pieces.specs.Sides.{ends_of, lengths, within};

use ring::Side;

// The lower end of the side i; 0 past the last record, and no Option: the definitions of a division read 0 there.
pub fn low_end(sides: &[Side], i: u16) -> u16
    ensures { result ≡ (ends_of sides.now).low i }
{
    sides.get(i as usize).map_or(0, |side| side.low)
}

// The higher end of the side i; 0 past the last record, and no Option: the definitions of a division read 0 there.
pub fn high_end(sides: &[Side], i: u16) -> u16
    ensures { result ≡ (ends_of sides.now).high i }
{
    sides.get(i as usize).map_or(0, |side| side.high)
}

// How far apart the ends of the side i are.
pub fn length_of(sides: &[Side], i: u16) -> u16
    ensures { result ≡ lengths sides.now i }
{
    high_end(sides, i).saturating_sub(low_end(sides, i))
}

// Whether the side j is the side i or lies below it.
pub fn lies_within(sides: &[Side], i: u16, j: u16) -> bool
    ensures { result ≡ within (lengths sides.now) i j }
{
    let end = i as usize + 2 * length_of(sides, i) as usize;
    (i <= j) & (j as usize + 1 < end)
}

// An index as 16 bits hold it.
pub fn narrow(x: usize) -> u16
    ensures { result ≡ cap x }
{
    u16::try_from(x).unwrap_or(u16::MAX)
}

// The left child of the side v.
pub fn left_of(v: u16) -> u16
    ensures { result ≡ left v }
{
    narrow(v as usize + 1)
}

// The right child of the side v.
pub fn right_of(sides: &[Side], v: u16) -> u16
    ensures { result ≡ right (lengths sides.now) v }
{
    narrow(v as usize + 2 * length_of(sides, left_of(v)) as usize)
}
