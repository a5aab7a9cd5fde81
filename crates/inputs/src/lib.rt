// The inputs of an overlay: its body and its tray's records, with every refusal from the body's to 16.
#![tactic(auto)]

mod alpha_check;
mod read;
mod sought;

pub use crate::alpha_check::check_alpha;
pub use crate::read::{Plan, read_inputs};
pub use crate::sought::{Sought, first_sought};
