// A chain of transforms on one record.
#![tactic(auto)]

mod transforms;

pub use crate::transforms::apply_transforms;
