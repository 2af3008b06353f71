// The tape: records of a byte of kind and a body, their reader and their writer.
#![tactic(auto)]

mod contents;
mod faults;
mod fields;
mod kinds;
mod laws;
mod reading;
mod records;
mod tapes;
mod texts;
mod writing;

pub use contents::{Content, Ends, HeadFields, LaneRate, Placed};
pub use faults::{Fault, Layer, Reason, TapeFault, WriteFault};
pub use kinds::{Kind, NoKind};
pub use laws::{one_meaning, reads_back, ten_kinds, writes_back};
pub use reading::Reader;
pub use records::Record;
pub use tapes::{count_records, rewrite, write_all};
