// Chains of transforms on a picture's record (document 01, "The scene call"): the records on the way, to and fro between two lent
// buffers.
#![tactic(auto)]

mod apply;

pub use crate::apply::finish_scene;
