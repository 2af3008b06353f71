// The lanes of a network, and rows of rates from one terminal, bettered lane by lane.
ghost use Rattle.std.specs.Prelude.{◌≡◌, ℕ, ◌+◌, ◌*◌, ◌<◌, ◌≤◌, false, map, length, Decides, IfOk, MatchResult};
ghost use Rattle.slow.specs.Areas.{at as member_at, entry as entry_at, lane_map, Few, LaneOrNone, LanesBelow, LaneArea, RateRefused, AreasRefused};
ghost use Rattle.slow.specs.Rows.{Relaxed, Swept, Settles, Start, Found, RowsFound};

use crate::area::place_count;
use crate::refusal::Refusal;
use rates::kind::Rate;
use rates::many::is_none;

// Whether a lane's place may hold a rate: none, where it does not stand, or a lane rate.
pub(crate) fn lane_or_none<R: Rate>(rate: R) -> bool
    ensures { Decides result (LaneOrNone R.kind (R.means rate)) }
{
    is_none(rate) || rate.is_lane_rate()
}

// Whether each place holds none or a lane rate; a refusal names the first that does not.
fn check_rates<R: Rate>(rates: &[R]) -> Result<(), Refusal>
    ensures { MatchResult result (λ _. LanesBelow R.kind (map R.means rates.now) (length rates.now)) (RateRefused R.kind (map R.means rates.now)) }
{
    match rates.iter().position(|rate| !lane_or_none(*rate)) {
        Some(place) => Err(Refusal::NoRate(place)),
        None => Ok(()),
    }
}

// Betters a row by the lanes out of one terminal, whose own rate is `base`; answers whether it changed.
fn relax_from<R: Rate>(base: R, out: &[R], row: &mut [R]) -> bool
    requires { length out.now ≡ length row.old }
    ensures { Relaxed R.kind (R.means base) (member_at R.kind (map R.means out.now)) (member_at R.kind (map R.means row.old)) (member_at R.kind (map R.means row.new)) (length row.new) result }
{
    let mut changed = false;
    // Not by `zip`: of what is written through an adapter of `iter_mut` a proof knows nothing.
    for (w, held) in row.iter_mut().enumerate() {
        let rate = base.join(out[w]);
        if rate.better(*held) {
            *held = rate;
            changed = true;
        }
    }
    changed
}

// Writes none into each place of a row.
fn clear<R: Rate>(row: &mut [R])
    ensures { (w : ℕ) → member_at R.kind (map R.means row.new) w ≡ R.kind.none }
{
    row.fill_with(|| R::none());
}

// The lanes of a network of n terminals: the rate of the one from u to v stands at the place n * u + v,
// none where it does not stand.
#[derive(Drop)]
pub(crate) struct Lanes<'a, R: Rate> {
    n: usize,
    rates: &'a [R],
    ghost few: { Few n },
    ghost square: { length rates.now ≡ n * n },
    ghost lanes_or_none: { ∥ LanesBelow R.kind (map R.means rates.now) (n * n) ∥₁ },
}

impl<'a, R: Rate> Lanes<'a, R> {
    // The lanes that an area shows, if it shows any; the table has so many places.
    pub(crate) fn new(n: usize, rates: &'a [R], places: usize) -> Result<Lanes<'a, R>, Refusal>
        ensures ok { IfOk result (λ lanes. (lanes.n ≡ n) × (lanes.rates.now ≡ rates.now)) }
        ensures checked { MatchResult result (λ _. LaneArea R.kind n (map R.means rates.now) × (places ≡ n * n)) (AreasRefused R.kind n (map R.means rates.now) places) }
    {
        let square = place_count(n)?;
        if rates.len() != square || places != square {
            return Err(Refusal::WrongLength);
        }
        check_rates(rates)?;
        Ok(Lanes { n, rates })
    }

    // Betters a row by each lane in turn; answers whether it changed.
    fn sweep(&self, row: &mut [R]) -> bool
        requires { length row.old ≡ self.now.n }
        ensures { Swept R.kind (lane_map R.kind self.now.n (map R.means self.now.rates.now)) self.now.n self.now.n (member_at R.kind (map R.means row.old)) (member_at R.kind (map R.means row.new)) result }
    {
        let n = self.n;
        let mut changed = false;
        // By number: tried with `chunks_exact` and `enumerate`, but std has no lemma on which part of the area a run is.
        for v in 0..n {
            let base = row[v];
            changed |= relax_from(base, &self.rates[n * v..n * v + n], row);
        }
        changed
    }

    // Sweeps until nothing changes, at most n times.
    fn settle(&self, row: &mut [R])
        requires { length row.old ≡ self.now.n }
        ensures { Settles R.kind (lane_map R.kind self.now.n (map R.means self.now.rates.now)) self.now.n self.now.n (member_at R.kind (map R.means row.old)) (member_at R.kind (map R.means row.new)) }
    {
        for _ in 0..self.n {
            if !self.sweep(row) {
                return;
            }
        }
    }

    // Fills a row with the rates from u that no trip of at most n lanes beats.
    fn find_row(&self, u: usize, row: &mut [R])
        requires long { length row.old ≡ self.now.n }
        requires below { u < self.now.n }
        ensures { Found R.kind (lane_map R.kind self.now.n (map R.means self.now.rates.now)) self.now.n u self.now.n (member_at R.kind (map R.means row.new)) }
    {
        clear(row);
        row[u] = R::still();
        self.settle(row);
    }

    // Fills each row of a table.
    pub(crate) fn find_rows(&self, table: &mut [R])
        requires { length table.old ≡ self.now.n * self.now.n }
        ensures { RowsFound R.kind (lane_map R.kind self.now.n (map R.means self.now.rates.now)) self.now.n self.now.n (entry_at R.kind self.now.n (map R.means table.new)) }
    {
        let n = self.n;
        // By number: tried with `chunks_exact_mut` and `enumerate`, but of what is written to the rows that it lends a proof knows nothing.
        for u in 0..n {
            self.find_row(u, &mut table[n * u..n * u + n]);
        }
    }
}
