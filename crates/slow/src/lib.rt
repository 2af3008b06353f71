// The best rates of a network of few terminals by plain relaxation: slow and simple, a yardstick for faster methods.
#![tactic(auto)]

mod area;
pub mod best;
pub mod refusal;
mod rows;
