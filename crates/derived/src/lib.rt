// Descriptors of derived images (ISO/IEC 23008-12, 6.6.2): the bodies of grids and overlays.
#![tactic(auto)]

mod canvas;
mod grid;
mod overlay;

pub use crate::grid::GridDescriptor;
pub use crate::overlay::{Fill, OverlayDescriptor, Placement};
