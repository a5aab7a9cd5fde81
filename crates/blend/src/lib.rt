// Inputs laid over each other by the Rust's blending arithmetic (document 01, Overlay), in stripes of a plane of the canvas.
#![tactic(auto)]

mod finish;
mod over;
mod row;

pub use crate::finish::{write_run, write_solid};
pub use crate::over::{Stripe, over_input, over_inputs};
