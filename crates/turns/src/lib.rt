// Rows of a plane reversed, and its columns written as rows.
#![tactic(auto)]

mod reverse;
mod steps;
mod turn;

pub use crate::reverse::reverse_row;
pub use crate::steps::write_apart;
pub use crate::turn::{Course, turn_rows};
