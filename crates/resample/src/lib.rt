// Scaling and another depth, each from a record to a record in a lent output.
#![tactic(auto)]

mod draw;
mod rescale;
mod resize;
mod scale;

pub use crate::draw::write_plane;
pub use crate::rescale::rescale_depth;
pub use crate::resize::resize_nearest;
pub use crate::scale::{apply_iscl, resize_area};
