// The checks of a plan, in the order in which its faults are told.
ghost use Rattle.std.specs.Prelude.{ℕ, ◌+◌, ◌*◌, List, ◌∷◌, ◌++◌, length, Decides};
ghost use Rattle.ring.specs.Linked.{ends_of};
ghost use Rattle.ring.specs.Faults.{Bad, Condition, FirstIn};

use crate::scan::{conflicts_with_one_of, same_ends};
use crate::{Area, FEWEST_TERMINALS, Link, MOST_TERMINALS, PlanFault};

// Refuses fewer terminals than 3 and more than 4,096.
pub fn check_terminals(n: usize) -> Result<(), PlanFault>
    ensures { (areas : List Area) (links : List Link) → FirstIn (Condition n areas links) 0 1 result }
{
    if n < FEWEST_TERMINALS || n > MOST_TERMINALS {
        return Err(PlanFault::Terminals);
    }
    Ok(())
}

// Refuses if an area is shorter than it needs to be.
pub fn check_areas(areas: &[Area]) -> Result<(), PlanFault>
    ensures { (n : ℕ) (links : List Link) → FirstIn (Condition n areas.now links) 1 2 result }
{
    for area in areas {
        if area.given < area.needed {
            return Err(PlanFault::ShortArea);
        }
    }
    Ok(())
}

// Whether an end of the link is not below n, or its ends are equal.
fn has_bad_ends(n: usize, link: Link) -> bool
    ensures { Decides result (Bad n (ends_of link)) }
{
    (n <= link.from as usize) | (n <= link.to as usize) | (link.from == link.to)
}

// Refuses the link that comes after the earlier ones, whatever comes later: for its ends, as a repeat of one of them, or for
// crossing one of them.
fn check_link(n: usize, earlier: &[Link], link: Link) -> Result<(), PlanFault>
    ensures { (areas : List Area) (later : List Link)
        → FirstIn (Condition n areas (earlier.now ++ link ∷ later)) (3 + 3 * length earlier.now) (6 + 3 * length earlier.now) result }
{
    let i = earlier.len();
    if has_bad_ends(n, link) {
        return Err(PlanFault::BadEnds(i));
    }
    if !conflicts_with_one_of(earlier, link) {
        return Ok(());
    }
    if earlier.iter().any(|other| same_ends(link, *other)) {
        return Err(PlanFault::Repeats(i));
    }
    Err(PlanFault::Crosses(i))
}

// Refuses the first bad link, for the first of its faults.
pub fn check_links(n: usize, links: &[Link]) -> Result<(), PlanFault>
    ensures { (areas : List Area) → FirstIn (Condition n areas links.now) 3 (3 + 3 * length links.now) result }
{
    for (i, link) in links.iter().enumerate() {
        check_link(n, &links[..i], *link)?;
    }
    Ok(())
}
