// Rows of the means over footprints, by the sums of their columns.
#![tactic(auto)]

mod sums;

pub use crate::sums::write_area_row;
