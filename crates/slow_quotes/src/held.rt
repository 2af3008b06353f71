// A network that is held, and what orders do to it.
ghost use Rattle.std.specs.Prelude.{◌≡◌, map, IfOk, MatchResult};
ghost use Rattle.slow.specs.Areas.{Few};
ghost use Rattle.slow_quotes.specs.Networks.{Answered, Posted, TakenAway, LookedFor, CountFault, InOrder, EmptyArea, WithoutLanes, network_of};

use crate::fault::Fault;
use crate::order::Order;
use rates::kind::Rate;
use slow::best::{Ends, MOST_TERMINALS, best_rate, best_rates, set_lane, would_earn};
use std::alloc::{AllocError, Global};
use std::marker::Model;

// A best rate, and between which terminals.
#[derive(Clone, Copy)]
pub struct Quotation<R> {
    pub ends: Ends,
    pub rate: R,
}

// What an order is answered with: a quotation if it asks for one, or why it is not carried out.
pub type Answer<R> = Result<Option<Quotation<R>>, Fault>;

// An area of n rows of n places that hold none; empty where there are too many terminals.
fn empty_area<R: Rate>(heap: Global, n: usize) -> Result<Vec<R>, AllocError>
    ensures { IfOk result (λ area. EmptyArea R.kind n (map R.means area.items)) }
{
    let mut area = Vec::new(heap);
    if n > MOST_TERMINALS {
        return Ok(area);
    }
    area.resize_with(n * n, || R::none())?;
    Ok(area)
}

// Fills the table of a network without lanes.
fn fill<R: Rate>(n: usize, lanes: &[R], table: &mut [R]) -> Result<(), Fault>
    requires lanes { EmptyArea R.kind n (map R.means lanes.now) }
    requires table { EmptyArea R.kind n (map R.means table.old) }
    ensures answer { MatchResult result (λ _. Few n) (CountFault n) }
    ensures in_order { InOrder R.kind n (map R.means lanes.now) (map R.means table.new) }
{
    best_rates(n, lanes, table)?;
    Ok(())
}

// A network: how many terminals it has, the area of its lanes and the table of its best rates.
#[derive(Drop)]
pub struct Held<R: Rate> {
    n: usize,
    lanes: Vec<R>,
    table: Vec<R>,
}

impl<R: Rate> Model for Held<R> {
    ghost use Rattle.std.specs.Prelude.{ℕ, List, map};
    ghost use Rattle.slow_quotes.specs.Networks.{InOrder};

    ghost Value = { ℕ × List R };

    ghost view = { λ held. (held.n, held.lanes.items) };

    ghost invariant = { λ held. InOrder R.kind held.n (map R.means held.lanes.items) (map R.means held.table.items) };
}

impl<R: Rate> Held<R> {
    // A network without terminals.
    pub fn new(heap: Global) -> Held<R>
        ensures { WithoutLanes R.kind 0 (network_of R.kind R.means result) }
    {
        Held {
            n: 0,
            lanes: Vec::new(heap),
            table: Vec::new(heap),
        }
    }

    // Begins a network of n terminals without lanes; of a refused number, one whose orders are all refused.
    fn begin(&mut self, heap: Global, n: usize) -> Result<Result<(), Fault>, AllocError>
        ensures network { IfOk result (λ _. WithoutLanes R.kind n (network_of R.kind R.means self.new)) }
        ensures answer { IfOk result (λ answer. MatchResult answer (λ _. Few n) (CountFault n)) }
    {
        let lanes = empty_area(heap, n)?;
        let mut table = empty_area(heap, n)?;
        let answer = fill(n, lanes.as_slice(), table.as_mut_slice());
        *self = Held { n, lanes, table };
        Ok(answer)
    }

    // Gives a lane a rate, unless a closed trip would earn.
    fn post(&mut self, ends: Ends, rate: R) -> Result<(), Fault>
        ensures { Posted R.kind R.means self.old self.new ends rate result }
    {
        if ends.from == ends.to {
            return Err(Fault::SameTerminal);
        }
        if would_earn(self.n, self.table.as_slice(), ends, rate)? {
            return Err(Fault::WouldEarn);
        }
        set_lane(self.n, self.lanes.as_mut_slice(), ends, rate)?;
        best_rates(self.n, self.lanes.as_slice(), self.table.as_mut_slice())?;
        Ok(())
    }

    // Takes a lane away.
    fn shut(&mut self, ends: Ends) -> Result<(), Fault>
        ensures { TakenAway R.kind R.means self.old self.new ends result }
    {
        set_lane(self.n, self.lanes.as_mut_slice(), ends, R::none())?;
        best_rates(self.n, self.lanes.as_slice(), self.table.as_mut_slice())?;
        Ok(())
    }

    // The best rate from one terminal to another.
    fn quote(&self, ends: Ends) -> Result<Quotation<R>, Fault>
        ensures { LookedFor R.kind R.means self.now ends result }
    {
        let rate = best_rate(self.n, self.table.as_slice(), ends)?;
        Ok(Quotation { ends, rate })
    }

    // Carries out an order. A fault is an answer like another, so it stands within the result: only memory can fail.
    pub fn carry_out(&mut self, heap: Global, order: Order<R>) -> Result<Answer<R>, AllocError>
        ensures { IfOk result (Answered R.kind R.means (network_of R.kind R.means self.old) order (network_of R.kind R.means self.new)) }
    {
        match order {
            Order::Terminals(n) => Ok(self.begin(heap, n)?.map(|()| None)),
            Order::Lane(ends, rate) => Ok(self.post(ends, rate).map(|()| None)),
            Order::Shut(ends) => Ok(self.shut(ends).map(|()| None)),
            Order::Quote(ends) => Ok(self.quote(ends).map(Some)),
        }
    }
}
