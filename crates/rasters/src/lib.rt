// Rows of a plane that are worked out from another plane's: the nearest samples, at another depth, or the means over footprints.
#![tactic(auto)]

mod levels;
mod write;

pub use crate::write::write_rows;
