// The stops of a trip that is being written: one more stop, or the trip cut back where it passed the terminal before.
#![tactic(auto)]

ghost use Rattle.std.specs.Prelude.{◌≡◌, ◌≤◌, ◌==◌, min, length, position, take};
ghost use Rattle.piece_rates.specs.Climbing.{place};
ghost use Rattle.stops.specs.Passing.{LoopsAreCut, Passed};

use rates::kind::Rate;

// The first place of the terminal among the stops.
fn place_among(stops: &[u16], terminal: u16) -> Option<usize>
    ensures { result ≡ position (λ stop. stop == terminal) stops.now }
{
    stops.iter().position(|stop| *stop == terminal)
}

// The first `count` places hold the stops so far. A lent slice with a count beside it, as the kernel has no heap; no stack, since
// stops are looked through and cut back.
#[derive(Drop)]
pub struct Stops<'a> {
    places: &'a mut [u16],
    count: usize,
    ghost within: { count ≤ length places.now },
}

impl<'a> Stops<'a> {
    // The stops that the first `count` places hold; all places where there are fewer.
    pub fn new(places: &'a mut [u16], count: usize) -> Stops<'a>
        ensures count { result.count ≡ min count (length places.old) }
        ensures same { result.places.now ≡ places.old }
        ensures held { result.places.ghost_name ≡ places.entry.ghost_name }
    {
        let count = count.min(places.len());
        Stops { places, count }
    }

    // How many stops there are.
    pub fn count(&self) -> usize
        ensures { result ≡ self.now.count }
    {
        self.count
    }

    // The first place of the terminal among the stops; their number where it is not there.
    fn place_of(&self, terminal: u16) -> usize
        ensures { result ≡ place (take self.now.count self.now.places.now) terminal }
    {
        place_among(&self.places[..self.count], terminal).unwrap_or(self.count)
    }

    // Puts a terminal behind the stops. Where it stands among them, the loop that ends there is left out: the stops are cut
    // back to it. Without room for one more, nothing is written.
    pub fn pass(&mut self, terminal: u16)
        ensures passed { Passed self.old.places.now self.old.count terminal self.new.count self.new.places.now }
        ensures same_room { length self.new.places.now ≡ length self.old.places.now }
        ensures held { self.new.places.ghost_name ≡ self.old.places.ghost_name }
    {
        let k = self.place_of(terminal);
        if k < self.places.len() {
            self.places[k] = terminal;
            self.count = k + 1;
        }
    }
}

// Where no closed trip earns, passing one more terminal that way keeps a trip without a terminal twice, at a rate no worse.
pub fn loops_are_cut<R: Rate>()
    ensures { LoopsAreCut R.kind }
{}
