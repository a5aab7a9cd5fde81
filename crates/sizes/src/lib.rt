// What clap and iscl make of a size (ISO/IEC 14496-12 and ISO/IEC 23008-12, 6.5): an aperture resolved, sides scaled.
#![tactic(auto)]

mod clap;
mod iscl;

pub use crate::clap::{Clap, Crop, CropRect, Margins};
pub use crate::iscl::Iscl;
