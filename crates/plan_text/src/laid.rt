// A plan, and a plan laid out in memory of the program's own.
ghost use Rattle.std.specs.Prelude.{◌≡◌, ◌<◌, ◌≤◌, ℕ, [], IfErr, IfOk, length};
ghost use Rattle.plan_text.specs.Laid.{Deepest, LaidOut, MostHolders, NotLaid, leaf_of, way_length};

use cutting::whole;
use division::TODO_PIECES;
use holders::{MOST_HOLDERS, way_up};
use plan::{lay_out, piece_count};
use records::Piece;
use ring::{Link, PlanFault, Side, side_count};
use std::alloc::{AllocError, Global};

// A plan as it is given: its number of terminals, and the links between them.
#[derive(Drop)]
pub struct Plan {
    pub terminals: usize,
    pub links: Vec<Link>,
}

impl Plan {
    // A plan without links.
    pub fn new(heap: Global, terminals: usize) -> Plan
        ensures terminals { result.terminals ≡ terminals }
        ensures links { result.links.items ≡ [] }
    {
        Plan {
            terminals,
            links: Vec::new(heap),
        }
    }
}

// The records of an accepted plan.
#[derive(Drop)]
pub struct Laid {
    pub terminals: usize,
    pub sides: Vec<Side>,
    pub pieces: Vec<Piece>,
}

// Why a plan is not laid out.
#[derive(Clone, Copy, Debug, PartialEq, Eq)]
pub enum LayError {
    Refused(PlanFault),
    OutOfMemory,
}

impl From<PlanFault> for LayError {
    ghost use Rattle.plan_text.specs.declared.laid.LayError.TheVariants.{Refused};

    ghost from_gives = { λ fault e. e ≡ Refused fault };

    fn from(fault: PlanFault) -> LayError {
        LayError::Refused(fault)
    }
}

impl From<AllocError> for LayError {
    ghost use Rattle.plan_text.specs.declared.laid.LayError.TheVariants.{OutOfMemory};

    ghost from_gives = { λ _ e. e ≡ OutOfMemory };

    fn from(_error: AllocError) -> LayError {
        LayError::OutOfMemory
    }
}

const NO_SIDE: Side = Side {
    low: 0,
    high: 0,
    link: false,
    leaf: 0,
};

// Lays out a plan.
pub fn lay(heap: Global, plan: &Plan) -> Result<Laid, LayError>
    ensures laid { IfOk result (LaidOut plan.now.terminals plan.now.links.items) }
    ensures refused { IfErr result (NotLaid plan.now.terminals plan.now.links.items) }
{
    let n = plan.terminals;
    let mut sides = vec![in heap; NO_SIDE; side_count(n)]?;
    let mut pieces = vec![in heap; whole(); piece_count(n)]?;
    let mut todo = vec![in heap; whole(); TODO_PIECES]?;
    lay_out(n, &plan.links, &mut sides, &mut pieces, &mut todo)?;
    Ok(Laid {
        terminals: n,
        sides,
        pieces,
    })
}

// The number of pieces from the side's leaf piece up; in a division, those that hold its lanes.
fn holder_count(side: Side, pieces: &[Piece]) -> usize
    ensures at_most { result ≤ 41 }
    ensures way { result ≡ way_length pieces.now side.leaf }
{
    // The numbers go unread: `way_up` writes them into a lent array, since it allocates nothing.
    let mut numbers = [0u16; MOST_HOLDERS];
    way_up(pieces, side.leaf, &mut numbers)
}

// The greatest of these counts.
fn longest_way(sides: &[Side], pieces: &[Piece]) -> usize
    ensures at_most { result ≤ 41 }
    ensures none_longer { (i : ℕ) → i < length sides.now → way_length pieces.now (leaf_of sides.now i) ≤ result }
    ensures reached { 0 < result → (i : ℕ) × (i < length sides.now) × (way_length pieces.now (leaf_of sides.now i) ≡ result) }
{
    let counts = sides.iter().map(|side| holder_count(*side, pieces));
    counts.max().unwrap_or(0)
}

// The greatest number of pieces that hold one lane.
pub fn most_holders(sides: &[Side], pieces: &[Piece]) -> usize
    ensures at_most { result ≤ 41 }
    ensures greatest { MostHolders sides.now pieces.now result }
{
    longest_way(sides, pieces)
}

// The deepest level of a piece.
pub fn deepest(pieces: &[Piece]) -> u8
    ensures { Deepest pieces.now result }
{
    pieces.iter().map(|piece| piece.level).max().unwrap_or(0)
}
