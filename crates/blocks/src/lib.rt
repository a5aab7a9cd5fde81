// The inputs that meet a block of the canvas, listed once, and laid over its stripes through the list (document 01, Overlay).
#![tactic(auto)]

mod list;
mod stripe;

pub use crate::list::{Block, Entry, fit_block};
pub use crate::stripe::{is_clear, over_stripe};
