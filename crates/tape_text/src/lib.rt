// Tapes as text: a line for each record, with its place, its kind and its fields.
#![tactic(auto)]

mod listings;
mod making;
mod parsing;
mod texts;

pub use listings::{Listing, end_of, list_tape, read_all};
pub use making::{Line, MakeFault, bytes_of, make_tape, read_line, read_text};
pub use parsing::parse;
pub use texts::{line_of, text_of};
