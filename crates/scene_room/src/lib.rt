// The room that the scene calls need (document 01, "The scene call"), by what they answer.
#![tactic(auto)]

mod room;

pub use crate::room::{grid_room, overlay_room};
