// Pictures that are another's planes walked along their axes, forward or back, with axes swapped or not: one writer for all of them.
#![tactic(auto)]

mod walk;

pub use crate::walk::{Axis, Move, write_moved};
