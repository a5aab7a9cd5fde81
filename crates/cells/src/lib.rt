// A tile in its cell of a canvas.
#![tactic(auto)]

mod cell;

pub use crate::cell::{Cell, cell_of, draw_tile, tile_form};
