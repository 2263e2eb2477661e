// The parts of every file format: single fields, a record's length byte, the opening, the end.
#![tactic(auto, unfolding(crate::specs::Parsers::field, crate::specs::Parsers::record_length, crate::specs::Parsers::version, crate::specs::Parsers::extent, crate::specs::Parsers::opening, crate::specs::Parsers::ended))]

pub mod end;
pub mod field;
pub mod opening;
pub mod record;
