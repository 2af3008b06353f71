// Tests on links, and the two scans over the links of a plan. The scans' loops have no branches.
ghost use Rattle.std.specs.Prelude.{◌≡◌, ℕ, ◌+◌, ◌<◌, ◌≤◌, ◌⊎◌, Decides};
ghost use Rattle.trips.specs.Links.{Cross, SameLink, Named};
ghost use Rattle.triangulation.specs.Filling.{Third};
ghost use Rattle.ring.specs.Linked.{ends_of, joins};
ghost use Rattle.ring.specs.Faults.{Among, Conflict};

use crate::Link;

// Whether the two links have the same two ends.
pub fn same_ends(one: Link, other: Link) -> bool
    ensures { Decides result (SameLink (ends_of one) (ends_of other)) }
{
    ((one.from == other.from) & (one.to == other.to))
        | ((one.from == other.to) & (one.to == other.from))
}

// Whether the terminal lies strictly between `low` and `high`.
fn lies_between(terminal: u16, low: u16, high: u16) -> bool
    ensures { Decides result ((low < terminal) × (terminal < high)) }
{
    (low < terminal) & (terminal < high)
}

// Whether the terminal lies before `low` or after `high`.
fn lies_beyond(terminal: u16, low: u16, high: u16) -> bool
    ensures { Decides result ((terminal < low) ⊎ (high < terminal)) }
{
    (terminal < low) | (high < terminal)
}

// Whether the two links cross: one end of the other link lies between the ends of this one, and its other end beyond them.
pub fn crosses(one: Link, other: Link) -> bool
    ensures { Decides result (Cross (ends_of one) (ends_of other)) }
{
    let low = one.low();
    let high = one.high();
    (lies_between(other.from, low, high) & lies_beyond(other.to, low, high))
        | (lies_beyond(other.from, low, high) & lies_between(other.to, low, high))
}

// Whether the two links have the same two ends or cross.
fn conflicts(one: Link, other: Link) -> bool
    ensures { Decides result (Conflict (ends_of one) (ends_of other)) }
{
    same_ends(one, other) | crosses(one, other)
}

// Whether the link has the same two ends as one of the earlier links or crosses it.
pub(crate) fn conflicts_with_one_of(earlier: &[Link], link: Link) -> bool
    ensures { Decides result (Among Conflict (ends_of link) earlier.now) }
{
    // No `any`: it stops early, and takes 1.6 G instructions for all of 8,189 links where this takes 0.23 G.
    earlier
        .iter()
        .fold(false, |found, other| found | conflicts(link, *other))
}

// The third terminal of the side from `low` to `high`, if the link draws it, else the next one.
fn drawn_third(link: Link, low: u16, high: u16) -> u16
    requires { low + 1 < high }
    ensures below { result < high }
    ensures drawn { (result ≡ low + 1) ⊎ Named (ends_of link) low result }
    ensures largest { (d : ℕ) → d < high → Named (ends_of link) low d → d ≤ result }
{
    if link.low() == low && link.high() < high {
        link.high()
    } else {
        low + 1
    }
}

// The third terminal of the side from `low` to `high`: the largest below `high` that is linked with `low`, else the next one.
pub(crate) fn third_terminal(links: &[Link], low: u16, high: u16) -> u16
    requires { low + 1 < high }
    ensures { Third (joins links.now) low high result }
{
    // A fold without a filter: a chain of filters takes three times the instructions.
    links.iter().fold(
        low + 1,
        |third, link| third.max(drawn_third(*link, low, high)),
    )
}
