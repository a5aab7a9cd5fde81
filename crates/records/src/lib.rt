// Frame records and trays of them, and where a record's planes stand.
#![tactic(auto)]

mod picture;
mod record;

pub use crate::picture::Picture;
pub use crate::record::{Frame, Plane, check_records, check_tray, parse_record, read_record};
