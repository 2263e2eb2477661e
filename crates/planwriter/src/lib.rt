// From a plan to bytes: the writer of plan files.
#![tactic(auto)]

mod put;
pub mod writer;
