// Fields of comma-separated text (RFC 4180): where a field ends, what it stands for, and the names, grades
// and numbers in it.
#![tactic(auto)]

mod field;
pub mod item;
