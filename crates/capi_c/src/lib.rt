// The library for C: each call of the crate capi, exported under its name and with its clauses. capi says what each of them answers.
#![tactic(auto)]

mod canvas;
mod composing;
mod descriptors;
mod fills;
mod operation;
mod properties;
mod read;
mod rooms;
mod scaling;
mod scenes;
mod sentences;
mod spots;
mod writing;
