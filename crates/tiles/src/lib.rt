// The tiles of a grid, read and judged, and the canvas that they are drawn on.
#![tactic(auto)]

mod judge;

pub use crate::judge::{
    Tiles, canvas_form, promotes, read_tiles, same_layout, spans_canvas, with_tile,
};
