// The division as a tree, one line for a piece, and the one-line summary.
ghost use Rattle.std.specs.Prelude.{OnOk};
ghost use Rattle.plan_text.specs.Texts.{GrownBy, GrownByA};
ghost use Rattle.plan_text.specs.Trees.{content_text, divided_text, edges_text, ends_text, fault_text, indent, link_ends_text, link_text, piece_text, single_text, spaced, summary_text, SummaryText, tree_text};

use crate::laid::{Laid, deepest, most_holders};
use cutting::{high_end, low_end, triangles};
use records::Piece;
use ring::{Link, PlanFault, Side};
use std::alloc::AllocError;

// The text and the sides are parameters of five functions here: a struct of these two borrows would be no shorter.

// Writes the ends of the side i.
fn write_ends(text: &mut String, sides: &[Side], i: u16) -> Result<(), AllocError>
    ensures { OnOk result (GrownBy text.old text.new (ends_text sides.now i)) }
{
    write!(text, "{}-{}", low_end(sides, i), high_end(sides, i))
}

// Writes terminals, each behind a blank.
fn write_spaced(text: &mut String, terminals: &[u16]) -> Result<(), AllocError>
    ensures { OnOk result (GrownBy text.old text.new (spaced terminals.now)) }
{
    for terminal in terminals {
        write!(text, " {terminal}")?;
    }
    Ok(())
}

// Writes the edge terminals, if there are any.
fn write_edges(text: &mut String, edges: &[u16]) -> Result<(), AllocError>
    ensures { OnOk result (GrownBy text.old text.new (edges_text edges.now)) }
{
    if edges.is_empty() {
        return Ok(());
    }
    write!(text, ", edge terminals")?;
    write_spaced(text, edges)
}

// Writes the three terminals of the triangle on the side i.
fn write_triangle(text: &mut String, sides: &[Side], i: u16) -> Result<(), AllocError>
    ensures { OnOk result (GrownBy text.old text.new (single_text sides.now i)) }
{
    let low = low_end(sides, i);
    let between = high_end(sides, i.saturating_add(1));
    let high = high_end(sides, i);
    write!(text, "triangle {low} {between} {high}")
}

// Writes how many triangles a piece has, and its seam.
fn write_cut(text: &mut String, sides: &[Side], piece: Piece) -> Result<(), AllocError>
    ensures { OnOk result (GrownBy text.old text.new (divided_text sides.now piece)) }
{
    let count = triangles(sides, piece.holes, piece.top);
    write!(text, "{count} triangles, seam ")?;
    write_ends(text, sides, piece.seam)
}

// What a piece is: its triangles and its seam, or its one triangle's terminals.
fn write_content(text: &mut String, sides: &[Side], piece: Piece) -> Result<(), AllocError>
    ensures { OnOk result (GrownBy text.old text.new (content_text sides.now piece)) }
{
    if piece.is_single() {
        write_triangle(text, sides, piece.top)
    } else {
        write_cut(text, sides, piece)
    }
}

// Writes two blanks for each level.
fn write_indent(text: &mut String, level: u8) -> Result<(), AllocError>
    ensures { OnOk result (GrownBy text.old text.new (indent level)) }
{
    for _ in 0..level {
        write!(text, "  ")?;
    }
    Ok(())
}

// Writes the line of a piece.
#[tactic(auto, unfolding(crate::specs::Trees::piece_text))]
fn write_piece(
    text: &mut String,
    sides: &[Side],
    number: usize,
    piece: Piece,
) -> Result<(), AllocError>
    ensures { OnOk result (GrownBy text.old text.new (piece_text sides.now number piece)) }
{
    write_indent(text, piece.level)?;
    write!(text, "piece {number}, level {}: ", piece.level)?;
    write_content(text, sides, piece)?;
    write_edges(text, piece.edges.as_slice())?;
    writeln!(text)
}

// Writes the line of these counts.
fn write_counts(
    text: &mut String,
    pieces: usize,
    level: u8,
    holders: usize,
) -> Result<(), AllocError>
    ensures { OnOk result (GrownBy text.old text.new (summary_text pieces level holders)) }
{
    writeln!(
        text,
        "pieces: {pieces}, deepest level: {level}, most pieces that hold one lane: {holders}"
    )
}

// Writes the counts of a division.
pub fn write_summary(text: &mut String, laid: &Laid) -> Result<(), AllocError>
    ensures { OnOk result (GrownByA (SummaryText laid.now) text.old text.new) }
{
    let holders = most_holders(&laid.sides, &laid.pieces);
    write_counts(text, laid.pieces.len(), deepest(&laid.pieces), holders)
}

// Writes the whole tree: the records stand in the order of the tree, a piece before its parts.
pub fn write_tree(text: &mut String, laid: &Laid) -> Result<(), AllocError>
    ensures { OnOk result (GrownBy text.old text.new (tree_text laid.now)) }
{
    for (number, piece) in laid.pieces.iter().enumerate() {
        write_piece(text, &laid.sides, number, *piece)?;
    }
    Ok(())
}

// Writes the two ends of the link i, if there is such a link.
fn write_link_ends(text: &mut String, links: &[Link], i: usize) -> Result<(), AllocError>
    ensures { OnOk result (GrownBy text.old text.new (link_ends_text links.now i)) }
{
    match links.get(i) {
        Some(link) => write!(text, " ({} {})", link.from, link.to),
        None => Ok(()),
    }
}

// Writes which link it is, if it is one.
fn write_link(text: &mut String, links: &[Link], index: Option<usize>) -> Result<(), AllocError>
    ensures { OnOk result (GrownBy text.old text.new (link_text links.now index)) }
{
    let Some(i) = index else {
        return Ok(());
    };
    write!(text, "link {i}")?;
    write_link_ends(text, links, i)?;
    write!(text, ": ")
}

// Writes why a plan is refused: the number, and the link with its index.
pub fn write_fault(text: &mut String, links: &[Link], fault: PlanFault) -> Result<(), AllocError>
    ensures { OnOk result (GrownBy text.old text.new (fault_text links.now fault)) }
{
    write!(text, "refused, number {}: ", fault.number())?;
    write_link(text, links, fault.link())?;
    writeln!(text, "{fault}")
}
