// How much lies below a side: holes, or triangles outside the holes.
// Sides and holes stay two parameters: `triangles` is called so from outside, and a struct would only be taken apart again.
ghost use Rattle.std.specs.Prelude.{◌≡◌, ◌-◌, ◌≤◌};
ghost use Rattle.pieces.specs.Cuts.{load, triangles as triangles_of};
ghost use Rattle.pieces.specs.Sides.{lengths};
ghost use Rattle.records.specs.Few.{listed};

use crate::sides::{length_of, lies_within};
use records::Few;
use ring::Side;

// The number of holes at or below the side v.
pub fn holes_below(sides: &[Side], holes: Few, v: u16) -> usize
    ensures { result ≡ load (lengths sides.now) (λ _. 1) (listed holes) v }
{
    holes
        .as_slice()
        .iter()
        .filter(|&&hole| lies_within(sides, v, hole))
        .count()
}

// The triangles at or below the side v.
fn triangles_on(sides: &[Side], v: u16) -> u16
    ensures is { result ≡ lengths sides.now v - 1 }
    ensures few { result ≤ 65535 }
{
    length_of(sides, v).saturating_sub(1)
}

// The triangles at or below the holes that lie at or below the side v.
fn triangles_in_holes(sides: &[Side], holes: Few, v: u16) -> usize
    ensures { result ≡ load (lengths sides.now) (λ h. lengths sides.now h - 1) (listed holes) v }
{
    holes
        .as_slice()
        .iter()
        .filter(|&&hole| lies_within(sides, v, hole))
        .map(|&hole| triangles_on(sides, hole) as usize)
        .sum()
}

// The triangles at or below the side v and below no hole.
pub fn triangles(sides: &[Side], holes: Few, v: u16) -> u16
    ensures { result ≡ triangles_of (lengths sides.now) (listed holes) v }
{
    let all = triangles_on(sides, v) as usize;
    all.saturating_sub(triangles_in_holes(sides, holes, v)) as u16
}
