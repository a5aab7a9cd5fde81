// One property of a chain: what it makes of a form, and of what the chain has reached, a record or what a sight shows of one.
#![tactic(auto)]

mod held;
mod stage;

pub use crate::held::{form_after, is_held, is_move};
pub use crate::stage::{Current, Stage, hold, next_form, stage_drawn, stage_start};
