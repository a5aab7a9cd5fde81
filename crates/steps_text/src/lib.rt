// The text that the program `steps` prints (document 01, "Steps program").
#![tactic(auto)]

mod input;
mod line;
mod text;

pub use crate::text::steps_text;
