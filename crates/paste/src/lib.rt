// Rectangles, runs and planes of samples stored in the planes of a record that stands in a lent output.
#![tactic(auto)]

mod paint;
mod rows;

pub use crate::paint::{paint_canvas, paint_plane};
pub use crate::rows::{Source, store_capped, store_even, store_rows};
