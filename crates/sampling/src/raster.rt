// A plane that is made of another, and the rule that its samples are worked out by.
use crate::area::Foot;
use crate::depth::Depths;

// Along one axis of a plane: how many samples there were, and how many there are to be.
#[derive(Clone, Copy)]
pub struct Axis {
    pub from: usize,
    pub to: usize,
}

// How a sample is worked out: from the nearest one, at another depth; or as the mean over its footprint.
#[derive(Clone, Copy)]
pub enum Rule {
    Near(Depths),
    Area,
}

// A plane by its bytes, and the plane that is made of it.
#[derive(Clone, Copy)]
pub struct Raster {
    pub bytes: usize,
    pub stride: usize,
    pub to_bytes: usize,
    pub across: Axis,
    pub down: Axis,
    pub rule: Rule,
}

// What is fixed along a row: the row of the nearest samples, or the row's footprint.
#[derive(Clone, Copy)]
pub struct NearRow {
    pub y: usize,
    pub depths: Depths,
}

#[derive(Clone, Copy)]
pub enum RowRule {
    Near(NearRow),
    Area(Foot),
}
