// An alpha plane attached to a record, from two records to one in a lent output.
#![tactic(auto)]

mod attach;

pub use crate::attach::attach_alpha;
