// Plans of terminals in a ring: which plans are refused, and the fill of the ring polygon to triangles.
#![tactic(auto)]

mod checks;
mod fill;
mod find;
mod scan;
#[cfg(test)]
mod tests;

ghost use Rattle.std.specs.Prelude.{◌≡◌, min, max};
ghost use Rattle.ring.specs.Faults.{fault_number, faulty_link};

pub use checks::{check_areas, check_links, check_terminals};
pub use fill::{areas_are_determined, triangulate};
pub use find::{find_side, side_count};
pub use scan::{crosses, same_ends};
use std::error::Error;
use std::fmt;

// The fewest terminals that make a ring, and the most that a book keeps.
pub const FEWEST_TERMINALS: usize = 3;

pub const MOST_TERMINALS: usize = 4096;

// A link of the plan, an undirected edge between two terminals.
#[derive(Clone, Copy, Debug, PartialEq, Eq)]
pub struct Link {
    pub from: u16,
    pub to: u16,
}

impl Link {
    // The end with the lower number.
    pub(crate) fn low(self) -> u16
        ensures { result ≡ min self.from self.to }
    {
        self.from.min(self.to)
    }

    // The end with the higher number.
    pub(crate) fn high(self) -> u16
        ensures { result ≡ max self.from self.to }
    {
        self.from.max(self.to)
    }
}

// A side of a triangle of the filled ring: its ends, low < high; whether it is a link; the piece of one triangle that its
// lanes belong to.
#[derive(Clone, Copy, Debug, PartialEq, Eq)]
pub struct Side {
    pub low: u16,
    pub high: u16,
    pub link: bool,
    pub leaf: u16,
}

// The length that a lent area needs and the length that it has.
#[derive(Clone, Copy, Debug, PartialEq, Eq)]
pub struct Area {
    pub needed: usize,
    pub given: usize,
}

// Why a plan is refused. A fault of a link has the link's index, counted from 0.
#[derive(Clone, Copy, Debug, PartialEq, Eq)]
pub enum PlanFault {
    // There are fewer than 3 terminals or more than 4,096.
    Terminals,
    // A lent area is too short.
    ShortArea,
    // An end is no terminal of the plan, or the two ends are equal.
    BadEnds(usize),
    // It has the two ends of an earlier link.
    Repeats(usize),
    // It crosses an earlier link.
    Crosses(usize),
}

impl PlanFault {
    // The number by which the fault is told, fixed for all who are told it, also across C: so no order of variants gives it.
    pub fn number(self) -> u8
        ensures { result ≡ fault_number self }
    {
        match self {
            PlanFault::ShortArea => 1,
            PlanFault::Terminals => 3,
            PlanFault::BadEnds(_) => 4,
            PlanFault::Repeats(_) => 5,
            PlanFault::Crosses(_) => 6,
        }
    }

    // The index of the link at fault, if the fault is a link's.
    pub fn link(self) -> Option<usize>
        ensures { result ≡ faulty_link self }
    {
        match self {
            PlanFault::Terminals | PlanFault::ShortArea => None,
            PlanFault::BadEnds(i) | PlanFault::Repeats(i) | PlanFault::Crosses(i) => Some(i),
        }
    }
}

impl fmt::Display for PlanFault {
    ghost use Rattle.std.specs.Prelude.{Some};
    ghost use Rattle.ring.specs.Faults.{reason};

    ghost output = { λ fault. Some (reason fault) };

    fn fmt<W: fmt::Write>(&self, f: &mut fmt::Formatter<W>) -> fmt::Result {
        f.write_str(match self {
            PlanFault::Terminals => "a ring has 3 to 4096 terminals",
            PlanFault::ShortArea => "an area is too short",
            PlanFault::BadEnds(_) => "an end is no terminal, or the ends are equal",
            PlanFault::Repeats(_) => "it repeats an earlier link",
            PlanFault::Crosses(_) => "it crosses an earlier link",
        })
    }
}

impl Error for PlanFault {}
