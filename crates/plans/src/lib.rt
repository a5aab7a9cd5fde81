// Where a chain of transforms leads, by forms alone (document 01, "The scene call").
#![tactic(auto)]

mod chain_plan;
mod plan;

pub use crate::chain_plan::{ChainPlan, plan_chain};
pub use crate::plan::plan_scene;
