// What a sample of a plane is by another plane's: the nearest one, at another depth, or the mean over its footprint.
#![tactic(auto)]

mod area;
mod depth;
mod nearest;
mod raster;
mod source;

pub use crate::area::{Foot, area_sample, footprint, weight};
pub use crate::depth::Depths;
pub use crate::nearest::nearest_place;
pub use crate::raster::{Axis, NearRow, Raster, RowRule, Rule};
pub use crate::source::Source;
