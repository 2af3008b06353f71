// Networks of lanes: trips and best rates. Each function's contract is a theorem that layers above cite;
// it holds for every kind of rate that keeps the laws.
#![tactic(auto)]

ghost use Rattle.trips.specs.Examples.{ExamplesShown};
ghost use Rattle.trips.specs.Links.{CrossingSymmetric};
ghost use Rattle.trips.specs.Theorems.{BestRateUnique};
ghost use Rattle.trips.specs.Theorems.{BestRateExists};
ghost use Rattle.trips.specs.Theorems.{SimpleTripIsBest};
ghost use Rattle.trips.specs.Theorems.{LoopsLeftOut};
ghost use Rattle.trips.specs.Theorems.{FewLanesEnough};
ghost use Rattle.trips.specs.Theorems.{BestRateBounded};
ghost use Rattle.trips.specs.Climbs.{ClimbIsBest};
ghost use Rattle.trips.specs.Climbs.{MirroredClimbIsBest};
ghost use Rattle.trips.specs.Climbs.{RowsAndColumnsMeet};
ghost use Rattle.trips.specs.Theorems.{EarningTest};
ghost use Rattle.trips.specs.Theorems.{ShuttingNeverEarns};
ghost use Rattle.trips.specs.Theorems.{FewerLanesNoBetter};
ghost use Rattle.trips.specs.Theorems.{StopsAreATrip};
ghost use Rattle.trips.specs.Theorems.{RelaxedTableIsBest};
ghost use Rattle.trips.specs.Theorems.{RelaxedTableEarnsNot};

use rates::kind::Rate;

// Of two links that cross, either may be named first.
pub fn crossing_is_symmetric()
    ensures { CrossingSymmetric }
{}

// There is one best rate at most between two terminals.
pub fn best_rate_is_unique<R: Rate>()
    ensures { BestRateUnique R.kind }
{}

// Over finitely many terminals, where no closed trip earns, there is a best rate between any two.
pub fn best_rate_exists<R: Rate>()
    ensures { BestRateExists R.kind }
{}

// And where there is a trip, some trip that passes no terminal twice has the best rate.
pub fn simple_trip_is_best<R: Rate>()
    ensures { SimpleTripIsBest R.kind }
{}

// Where no closed trip earns, every trip has one with the same ends, no terminal twice, and a rate no worse.
pub fn loops_can_be_left_out<R: Rate>()
    ensures { LoopsLeftOut R.kind }
{}

// A trip over terminals below n that passes none twice has at most n - 1 lanes.
pub fn few_lanes_are_enough<R: Rate>()
    ensures { FewLanesEnough R.kind }
{}

// A best rate's size is at most n - 1 times the largest size of a lane.
pub fn best_rate_is_bounded<R: Rate>()
    ensures { BestRateBounded R.kind }
{}

// One climb gives the best rates over two parts that meet in two terminals, from those within each.
pub fn climb_is_best<R: Rate>()
    ensures { ClimbIsBest R.kind }
{}

// The same for rates into a terminal.
pub fn mirrored_climb_is_best<R: Rate>()
    ensures { MirroredClimbIsBest R.kind }
{}

// The best rate between two terminals, in different parts or in one, from a row and a column.
pub fn rows_and_columns_meet<R: Rate>()
    ensures { RowsAndColumnsMeet R.kind }
{}

// After giving one lane a rate, some closed trip earns exactly when the rate and the best way back beat still.
pub fn earning_is_tested_by_the_way_back<R: Rate>()
    ensures { EarningTest R.kind }
{}

// Taking a lane away makes no closed trip earn.
pub fn shutting_never_earns<R: Rate>()
    ensures { ShuttingNeverEarns R.kind }
{}

// Fewer lanes: their trips are trips of the whole, best rates no better, and no closed trip earns if none did.
pub fn fewer_lanes_are_no_better<R: Rate>()
    ensures { FewerLanesNoBetter R.kind }
{}

// A list of stops whose neighbours have standing lanes is a trip with the joined rate, and back.
pub fn stops_are_a_trip<R: Rate>()
    ensures { StopsAreATrip R.kind }
{}

// A table that no lane can better, whose entries are each none or some trip's rate, has the best rates.
pub fn relaxed_table_is_best<R: Rate>()
    ensures { RelaxedTableIsBest R.kind }
{}

// If such a table has still from each terminal to itself, no closed trip earns.
pub fn relaxed_table_earns_not<R: Rate>()
    ensures { RelaxedTableEarnsNot R.kind }
{}

// The ten worked examples hold.
pub fn examples_hold()
    ensures { ExamplesShown }
{}
