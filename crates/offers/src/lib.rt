// Offered trips: the kinds of rate by name, the rates of their lanes as text, and the price of a trip.
#![tactic(auto)]

pub mod kinds;
pub mod offer;
pub mod written;
