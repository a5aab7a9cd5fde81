// Inputs without alpha laid on a canvas (document 01, Overlay): the rows of each, in list order, in the rectangle that it covers.
#![tactic(auto)]

mod axis;
mod lay;

pub use crate::axis::{Stretch, reach, step_of};
pub use crate::lay::lay_inputs;
