// The best rates of a network by plain relaxation, and what they answer.
ghost use Rattle.std.specs.Prelude.{◌≡◌, ◌*◌, ◌≤◌, map, length, Decides, MatchResult};
ghost use Rattle.slow.specs.Areas.{entry as entry_at, Relaxing, LookedUp, Testing, LaneSet, LaneRefused};
ghost use Rattle.slow.specs.Rows.{SomeLoopBetter};

use crate::area::place_of;
use crate::refusal::Refusal;
use crate::rows::{Lanes, lane_or_none};
use rates::kind::Rate;

// The most terminals of a network.
pub const MOST_TERMINALS: usize = 64;

// From which terminal, and to which.
#[derive(Clone, Copy, Debug, PartialEq, Eq)]
pub struct Ends {
    pub from: usize,
    pub to: usize,
}

impl Ends {
    // Those of the way back.
    pub(crate) fn back(self) -> Ends
        ensures from { result.from ≡ self.to }
        ensures to { result.to ≡ self.from }
    {
        Ends {
            from: self.to,
            to: self.from,
        }
    }
}

// Whether a rate is better than still.
fn beats_still<R: Rate>(rate: R) -> bool
    ensures { result ≡ R.kind.better (R.means rate) R.kind.still }
{
    rate.better(R::still())
}

// Whether the rate from some terminal back to it is better than still.
fn some_loop_better<R: Rate>(n: usize, table: &[R]) -> bool
    requires few { n ≤ 64 }
    requires square { length table.now ≡ n * n }
    ensures { Decides result (SomeLoopBetter R.kind n (entry_at R.kind n (map R.means table.now))) }
{
    (0..n).any(|u| beats_still(table[n * u + u]))
}

// Fills the table with the best rates of the network of n terminals whose lane from u to v has the rate
// at the place n * u + v, none where it does not stand; the table is laid out likewise.
// Answers whether a closed trip earns: if so, there need be no best rates, and the table is not to be used.
// A refusal leaves the table as it was.
// The number and each area are parameters of their own: a struct of them would be made anew for each call, and checked then.
pub fn best_rates<R: Rate>(n: usize, lanes: &[R], table: &mut [R]) -> Result<bool, Refusal>
    ensures { Relaxing R.kind R.means n (map R.means lanes.now) table.old table.new result }
{
    let lanes = Lanes::new(n, lanes, table.len())?;
    lanes.find_rows(table);
    Ok(some_loop_better(n, table))
}

// The rate from one terminal to another that a table has: the best, if `best_rates` filled it and no closed trip earns.
pub fn best_rate<R: Rate>(n: usize, table: &[R], ends: Ends) -> Result<R, Refusal>
    ensures { LookedUp R.kind R.means n table.now ends.from ends.to result }
{
    let place = place_of(n, table.len(), ends)?;
    Ok(table[place])
}

// Whether a closed trip would earn if the lane from one terminal to another had this rate, by the table of best rates
// of a network in which none earns: the rate and the best way back are then better than still.
pub fn would_earn<R: Rate>(n: usize, table: &[R], ends: Ends, rate: R) -> Result<bool, Refusal>
    ensures { Testing R.kind R.means n table.now ends.from ends.to (R.means rate) result }
{
    let back = place_of(n, table.len(), ends.back())?;
    if !rate.is_lane_rate() {
        return Err(Refusal::NoLaneRate);
    }
    Ok(beats_still(rate.join(table[back])))
}

// Gives the lane from one terminal to another a rate, or none, where it is to stand no more. A refusal changes nothing.
pub fn set_lane<R: Rate>(n: usize, lanes: &mut [R], ends: Ends, rate: R) -> Result<(), Refusal>
    ensures { MatchResult result (λ _. LaneSet R.kind R.means n lanes.old lanes.new ends.from ends.to (R.means rate)) (λ why. LaneRefused R.kind n lanes.old lanes.new ends.from ends.to (R.means rate) why) }
{
    let place = place_of(n, lanes.len(), ends)?;
    if !lane_or_none(rate) {
        return Err(Refusal::NoLaneRate);
    }
    lanes[place] = rate;
    Ok(())
}
