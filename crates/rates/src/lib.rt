// Kinds of rate: the trait with its laws, cents, tonnes, pairs, and functions over slices of rates.
#![tactic(auto)]

pub mod capped;
pub mod cents;
pub mod kind;
pub mod many;
pub mod pair;
pub mod tonnes;
