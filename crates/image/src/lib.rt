// Pixel formats, sizes, and a picture's form.
#![tactic(auto)]

mod format;
mod size;

pub use crate::format::{Form, Part, PixelFormat, is_odd};
pub use crate::size::Size;
