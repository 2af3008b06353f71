// Sheets of pieces, written over lent slices of rates of any kind.
#![tactic(auto)]

mod cells;
mod leaf;
mod parent;

pub use cells::{ROW, SHEET, better_joined, clear_rates, rate_at};
pub use holders::{piece_at, side_at};
pub use leaf::{Both, Triangle, write_leaf};
pub use parent::{Cut, place_of, write_parent};
