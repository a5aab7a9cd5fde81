// The canvas session: tiles placed one by one on a grid's canvas, in a buffer that each call lends.
#![tactic(auto)]

mod canvas;
mod draw;
mod marks;
mod state;

pub use crate::state::Canvas;
