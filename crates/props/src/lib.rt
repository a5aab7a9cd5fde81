// Transformative properties (ISO/IEC 23008-12, 6.5) and chains of them: how they are read, and the sizes that they give.
#![tactic(auto)]

mod chain;
mod entry;
mod size;

pub use crate::chain::{Chain, check_chain};
pub use crate::entry::{Imir, Irot, Property, PropertyEntry, read_entry};
