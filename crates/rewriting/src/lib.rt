// Sheets kept right: the first ones, on which no lane stands, and those that a changed lane asks for.
#![tactic(auto)]

mod bare;
mod change;
mod one;
mod up;

pub use bare::write_bare_sheets;
pub use change::{Lane, change_lane};
pub use up::{NoRoom, rewrite_up};
