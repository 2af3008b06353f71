// The ring as an SVG picture: terminals on a circle, ring sides, links, sides of the fill, and seams coloured by level.
ghost use Rattle.std.specs.Prelude.{◌≡◌, ◌*◌, ◌≤◌, Decides, OnOk};
ghost use Rattle.plan_text.specs.Texts.{GrownBy, GrownByA};
ghost use Rattle.plan_text.specs.Pictures.{are_neighbours, broad_line_text, colour_text, InMargins, key_text, legend_text, legends_text, line_text, mark_text, NearCircle, Neighbours, PictureText, point_at, radius, seam_text, seams_text, side_text, sides_text, sine, sized_head_text, style_text, terminal_text, terminals_text, wave};

use crate::laid::{Laid, deepest};
use cutting::{high_end, low_end};
use records::Piece;
use ring::Side;
use std::alloc::AllocError;

// The number of terminals is a parameter of six functions here: a struct of this number alone would be no shorter.

// Angles are counted in tenths of a degree; half a turn has 1,800.
const HALF_TURN: usize = 1800;

const RADIUS: usize = 300;

const MARGIN: usize = 60;

// A point of the picture, from the upper left corner.
#[derive(Clone, Copy)]
struct Point {
    x: usize,
    y: usize,
}

// The sine of an angle below half a turn, times the radius, by the fraction 16 p / (5 h h - 4 p) with p = a (h - a).
// It is off by at most two thousandths of the radius.
fn sine(angle: usize) -> usize
    ensures is { result ≡ sine angle }
    ensures within { result ≤ radius }
{
    let product = angle.wrapping_mul(HALF_TURN.saturating_sub(angle));
    let above = product.wrapping_mul(16 * RADIUS);
    let below = (5 * HALF_TURN * HALF_TURN).saturating_sub(product.wrapping_mul(4));
    above.checked_div(below).unwrap_or(0)
}

// The radius and the sine of any angle together.
fn wave(angle: usize) -> usize
    ensures is { result ≡ wave angle }
    ensures within { result ≤ 2 * radius }
{
    let part = angle % (2 * HALF_TURN);
    if part < HALF_TURN {
        RADIUS.saturating_add(sine(part))
    } else {
        RADIUS.saturating_sub(sine(part - HALF_TURN))
    }
}

// Where the terminal stands: clockwise from the top.
fn place(terminals: usize, terminal: u16) -> Point
    ensures is { result ≡ point_at terminals terminal }
    ensures inside { InMargins result }
    ensures near { NearCircle result }
{
    let angle = (terminal as usize * 2 * HALF_TURN)
        .checked_div(terminals)
        .unwrap_or(0);
    Point {
        x: wave(angle).saturating_add(MARGIN),
        y: (2 * RADIUS + MARGIN).saturating_sub(wave(angle.saturating_add(HALF_TURN / 2))),
    }
}

// Whether the side joins neighbours on the ring.
fn is_ring_side(terminals: usize, side: Side) -> bool
    ensures means { Decides result (Neighbours terminals side) }
    ensures is { result ≡ are_neighbours terminals side }
{
    let apart = side.high.saturating_sub(side.low) as usize;
    apart == 1 || apart.saturating_add(1) == terminals
}

// How a side is drawn: links boldly, ring sides plainly, sides of the fill broken.
fn side_style(terminals: usize, side: Side) -> &'static str
    ensures { result.now ≡ style_text terminals side }
{
    if side.link {
        "stroke=\"#000\" stroke-width=\"2.5\""
    } else if is_ring_side(terminals, side) {
        "stroke=\"#000\" stroke-width=\"1\""
    } else {
        "stroke=\"#666\" stroke-width=\"1\" stroke-dasharray=\"5 4\""
    }
}

// The colours of the seams, by level; they come again after eight levels.
const COLOURS: [&str; 8] = [
    "#d62728", "#ff7f0e", "#e6c700", "#2ca02c", "#17becf", "#1f77b4", "#9467bd", "#e377c2",
];

// The colour of the seams at a level.
fn level_colour(level: u8) -> &'static str
    ensures { result.now ≡ colour_text level }
{
    COLOURS[level as usize % 8]
}

// Writes a line from one point to another, in a style.
#[tactic(auto, unfolding(crate::specs::Pictures::line_text))]
fn write_line(text: &mut String, from: Point, to: Point, style: &str) -> Result<(), AllocError>
    ensures { OnOk result (GrownBy text.old text.new (line_text from to style.now)) }
{
    writeln!(
        text,
        "<line x1=\"{}\" y1=\"{}\" x2=\"{}\" y2=\"{}\" {style}/>",
        from.x, from.y, to.x, to.y
    )
}

// Writes a broad line from one point to another, in a colour.
fn write_broad_line(
    text: &mut String,
    from: Point,
    to: Point,
    colour: &str,
) -> Result<(), AllocError>
    ensures { OnOk result (GrownBy text.old text.new (broad_line_text from to colour.now)) }
{
    write!(
        text,
        "<g stroke-width=\"9\" stroke-opacity=\"0.7\" stroke=\"{colour}\">"
    )?;
    write_line(text, from, to, "")?;
    writeln!(text, "</g>")
}

// Writes the seam of a piece, as a broad line.
fn write_seam(text: &mut String, laid: &Laid, piece: Piece) -> Result<(), AllocError>
    ensures { OnOk result (GrownBy text.old text.new (seam_text laid.now.terminals laid.now.sides.items piece)) }
{
    let from = place(laid.terminals, low_end(&laid.sides, piece.seam));
    let to = place(laid.terminals, high_end(&laid.sides, piece.seam));
    write_broad_line(text, from, to, level_colour(piece.level))
}

// Broad lines below the sides, one for each seam.
fn write_seams(text: &mut String, laid: &Laid) -> Result<(), AllocError>
    ensures { OnOk result (GrownBy text.old text.new
        (seams_text laid.now.terminals laid.now.sides.items laid.now.pieces.items)) }
{
    for piece in laid.pieces.iter() {
        if !piece.is_single() {
            write_seam(text, laid, *piece)?;
        }
    }
    Ok(())
}

fn write_side(text: &mut String, terminals: usize, side: Side) -> Result<(), AllocError>
    ensures { OnOk result (GrownBy text.old text.new (side_text terminals side)) }
{
    let from = place(terminals, side.low);
    let to = place(terminals, side.high);
    write_line(text, from, to, side_style(terminals, side))
}

fn write_sides(text: &mut String, laid: &Laid) -> Result<(), AllocError>
    ensures { OnOk result (GrownBy text.old text.new (sides_text laid.now.terminals laid.now.sides.items)) }
{
    for side in laid.sides.iter() {
        write_side(text, laid.terminals, *side)?;
    }
    Ok(())
}

// Writes a circle with the terminal's number in it.
fn write_mark(text: &mut String, at: Point, terminal: u16) -> Result<(), AllocError>
    requires { InMargins at }
    ensures { OnOk result (GrownBy text.old text.new (mark_text at terminal)) }
{
    let Point { x, y } = at;
    let below = y + 4;
    writeln!(
        text,
        "<circle r=\"11\" fill=\"#fff\" stroke=\"#000\" cx=\"{x}\" cy=\"{y}\"/>"
    )?;
    writeln!(
        text,
        "<text text-anchor=\"middle\" x=\"{x}\" y=\"{below}\">{terminal}</text>"
    )
}

// Writes a terminal at its place.
fn write_terminal(text: &mut String, terminals: usize, terminal: u16) -> Result<(), AllocError>
    ensures { OnOk result (GrownBy text.old text.new (terminal_text terminals terminal)) }
{
    write_mark(text, place(terminals, terminal), terminal)
}

fn write_terminals(text: &mut String, terminals: usize) -> Result<(), AllocError>
    ensures { OnOk result (GrownBy text.old text.new (terminals_text terminals)) }
{
    for terminal in 0..terminals.min(4096) as u16 {
        write_terminal(text, terminals, terminal)?;
    }
    Ok(())
}

// Writes the line of the legend for a level that has this colour.
#[tactic(auto, unfolding(crate::specs::Pictures::key_text))]
fn write_key(text: &mut String, level: u8, colour: &str) -> Result<(), AllocError>
    ensures { OnOk result (GrownBy text.old text.new (key_text level colour.now)) }
{
    let y = level as usize * 18 + 20;
    writeln!(
        text,
        "<text x=\"8\" y=\"{y}\" fill=\"{colour}\">seams at level {level}</text>"
    )
}

// Writes what the colour of a level means.
fn write_level(text: &mut String, level: u8) -> Result<(), AllocError>
    ensures { OnOk result (GrownBy text.old text.new (legend_text level)) }
{
    write_key(text, level, level_colour(level))
}

// What the colours mean.
fn write_levels(text: &mut String, last: u8) -> Result<(), AllocError>
    ensures { OnOk result (GrownBy text.old text.new (legends_text last)) }
{
    for level in 0..last {
        write_level(text, level)?;
    }
    Ok(())
}

// Writes what comes before the picture's parts: its size.
fn write_head(text: &mut String, size: usize) -> Result<(), AllocError>
    ensures { OnOk result (GrownBy text.old text.new (sized_head_text size)) }
{
    writeln!(
        text,
        "<svg xmlns=\"http://www.w3.org/2000/svg\" font-family=\"sans-serif\" font-size=\"12\" viewBox=\"0 0 {size} {size}\">"
    )
}

// Writes the whole picture.
pub fn write_picture(text: &mut String, laid: &Laid) -> Result<(), AllocError>
    ensures { OnOk result (GrownByA (PictureText laid.now) text.old text.new) }
{
    write_head(text, 2 * RADIUS + 2 * MARGIN)?;
    write_seams(text, laid)?;
    write_sides(text, laid)?;
    write_terminals(text, laid.terminals)?;
    write_levels(text, deepest(&laid.pieces))?;
    writeln!(text, "</svg>")
}
