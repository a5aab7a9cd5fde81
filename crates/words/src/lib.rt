// Numbers and lent words of the calls for C: how an answer, a refusal and a state are told in them.
#![tactic(auto)]

mod answers;
mod canvas;
mod code;
mod colour;
mod offsets;

pub use crate::answers::{
    bit_of, put_crop, put_fill, put_form, put_named, put_plane, put_point, put_sight, put_words,
};
pub use crate::canvas::{canvas_of, field_of, keep, marks_of, put_canvas, put_marks};
pub use crate::code::{answer_code, refusal_code};
pub use crate::colour::colour_of;
pub use crate::offsets::put_offsets;
