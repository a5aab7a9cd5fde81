// The calls for C. An answer is below 2^63 a length, a count, or 0 where there is none; from 2^63 on it is a refusal: its number in bits
// 0 to 7, the sort of the item that is refused in bits 8 to 15 and the item's index in bits 16 to 55. A slice passes as a pointer and a
// length. Every call takes any bytes.
#![tactic(auto)]

pub mod canvas;
pub mod composing;
pub mod descriptors;
pub mod fills;
pub mod operation;
pub mod properties;
pub mod read;
pub mod rooms;
pub mod scaling;
pub mod scenes;
pub mod sentences;
pub mod spots;
pub mod writing;
