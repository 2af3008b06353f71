// Plans of well-known shapes: the sides of a whole triangulation as links, in preorder.
#![tactic(auto)]

ghost use Rattle.std.specs.Prelude.{◌≡◌, ◌+◌, ◌-◌, ◌*◌, ◌<◌, ◌≤◌, slice_set};
ghost use Rattle.ring.specs.Linked.{link_at};
ghost use Rattle.shapes.specs.Shapes.{Drawn, link_between, mixed_of, NamedBy, third_of, ThirdBy};

use ring::Link;
use std::error::Error;
use std::fmt;
use std::str::FromStr;

// How the triangles lie.
#[derive(Clone, Copy, Debug, PartialEq, Eq)]
pub enum Shape {
    // All at terminal 0.
    Fan,
    // In a strip that turns left and right by turns.
    Zigzag,
    // Each base halved.
    Balanced,
    // Anyhow, but the same on every run.
    Scattered,
    // No links at all.
    Bare,
}

// The word names no shape.
#[derive(Clone, Copy, Debug, PartialEq, Eq)]
pub struct UnknownShape;

impl fmt::Display for UnknownShape {
    ghost use Rattle.std.specs.Prelude.{codes, Some};

    ghost output = { λ _. Some (codes "no shape has this name") };

    fn fmt<W: fmt::Write>(&self, f: &mut fmt::Formatter<W>) -> fmt::Result {
        f.write_str("no shape has this name")
    }
}

impl Error for UnknownShape {}

impl FromStr for Shape {
    type Err = UnknownShape;

    ghost from_str_gives = { NamedBy };

    fn from_str(word: &str) -> Result<Shape, UnknownShape> {
        match word {
            "fan" => Ok(Shape::Fan),
            "zigzag" => Ok(Shape::Zigzag),
            "balanced" => Ok(Shape::Balanced),
            "scattered" => Ok(Shape::Scattered),
            "none" => Ok(Shape::Bare),
            _ => Err(UnknownShape),
        }
    }
}

// A number from 0 to 65,535 that looks random.
fn mixed(low: u16, high: u16) -> u16
    ensures { result ≡ mixed_of low high }
{
    let seed = u64::from(low)
        .wrapping_mul(65536)
        .wrapping_add(u64::from(high));
    let spread = seed
        .wrapping_mul(6364136223846793005)
        .wrapping_add(1442695040888963407);
    ((spread >> 40) % 65536) as u16
}

// The third terminal of the triangle on the side from `low` to `high`.
fn third(shape: Shape, low: u16, high: u16) -> u16
    requires { low + 1 < high }
    ensures above_low { low < result }
    ensures below_high { result < high }
    ensures lies { ThirdBy shape low result high }
    ensures chosen { result ≡ third_of shape low high }
{
    match shape {
        Shape::Fan => high - 1,
        Shape::Zigzag => if low % 2 == high % 2 {
            low + 1
        } else {
            high - 1
        },
        Shape::Balanced => low + (high - low) / 2,
        Shape::Scattered => low + 1 + mixed(low, high) % (high - low - 1),
        Shape::Bare => low + 1,
    }
}

// Writes a link at the place i, if there is one.
fn put(links: &mut [Link], i: usize, link: Link)
    ensures { links.new ≡ slice_set links.old i link }
{
    // Not by `get_mut`: tried, no proof; of a slice it tells the length alone, and not what was written.
    if i < links.len() {
        links[i] = link;
    }
}

// Writes the two sides of the triangle on the side at `i`: the left one at the next place, the right one past the left one's.
fn put_children(shape: Shape, links: &mut [Link], i: usize)
    ensures unit { let at = link_at links.old i in at.to ≤ at.from + 1 → links.new ≡ links.old }
    ensures split { let at = link_at links.old i in
        let c = third_of shape at.from at.to in
        let left_drawn = slice_set links.old (i + 1) (link_between at.from c) in
        at.from + 1 < at.to
        → links.new ≡ slice_set left_drawn (i + 2 * (c - at.from)) (link_between c at.to) }
{
    let Some(&Link { from, to }) = links.get(i) else {
        return;
    };
    if to > from && to - from > 1 {
        let between = third(shape, from, to);
        put(links, i.saturating_add(1), Link { from, to: between });
        put(
            links,
            i.saturating_add(2 * (between - from) as usize),
            Link { from: between, to },
        );
    }
}

// Fills the area with the sides of a ring whose last terminal is `last`; there are 2 last - 1 of them. A shorter area gets the
// first of them.
pub fn draw_shape(shape: Shape, last: u16, links: &mut [Link])
    ensures { 1 ≤ last → Drawn shape last links.new }
{
    put(links, 0, Link { from: 0, to: last });
    // By index: a turn writes later places, which an iterator over the links has lent out.
    for i in 0..links.len() {
        put_children(shape, links, i);
    }
}
