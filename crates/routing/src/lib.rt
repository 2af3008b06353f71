// A best trip between two terminals, found by unfolding parts of it from the whole plan down to single triangles.
#![tactic(auto)]

mod seam;
mod split;
mod triangle;
mod trip;
mod unfold;
mod waiting;

pub use trip::{NoRoom, Route, TODO_PARTS, best_trip};
pub use waiting::{Parts, RoutePart};
