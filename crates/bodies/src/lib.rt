// Descriptor bodies written from their fields (document 02, A4; ISO/IEC 23008-12, 6.6.2).
#![tactic(auto)]

mod form;
mod grid;
mod overlay;

pub use crate::grid::write_grid;
pub use crate::overlay::write_overlay;
