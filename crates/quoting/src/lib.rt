// The best rate between two terminals of a plan, by climbing from small pieces to larger ones.
#![tactic(auto)]

mod areas;
mod climbs;
mod lines;
mod passes;
mod seams;
mod steps;
mod walks;

pub use areas::Areas;
pub use passes::{best_rate, best_within};
pub use seams::{Child, Seam};
