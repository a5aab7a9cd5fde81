// The planes of a picture: samples and rows, promotion, and the writer of tight records.
#![tactic(auto)]

mod samples;
mod write;

pub use crate::samples::{
    Line, copy_row, covering, fill_row, plane_data, promoted, put_sample, sample, shift, write_line,
};
pub use crate::write::{
    hand_back, head_size, plane_size, record_size, tight, write_head, write_plane_head,
};
