// Grids: the tiles of a tray, each in its own cell of one canvas.
#![tactic(auto)]

mod compose;
mod paint;

pub use crate::compose::{composite_grid, draw_grid};
pub use crate::paint::paint_canvas;
