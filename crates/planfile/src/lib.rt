// From bytes to a plan: the reader and the name lookup of plan files.
#![tactic(auto)]

pub mod extent;
mod grid;
pub mod lookup;
mod preamble;
pub mod reader;
mod row;
mod store;
