// Cutting one piece: its seam, its two parts and its finished record. Nothing here writes to an area.
// Every function has a value on side records of any content; what the values mean on a filled ring is said in `pieces`.
#![tactic(auto)]

mod parts;
mod seam;
mod sides;
mod weights;

pub use parts::{first_part, parted, second_part, single, whole};
pub use seam::seam_of;
pub use sides::{high_end, left_of, length_of, low_end, right_of};
pub use weights::triangles;
