// Job lists as comma-separated text (RFC 4180): import and export.
#![tactic(auto)]

pub mod export;
mod header;
pub mod import;
mod line;
