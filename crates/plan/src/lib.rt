// What a plan is: the edition's bounds; slots, units and rates; jobs;
// rules 4 to 9 on a plan in hand; its jobs as columns; its boundaries and intervals; the places of its table.
#![tactic(auto)]

pub mod boundaries;
pub mod columns;
pub mod edition;
pub mod kinds;
pub mod refusal;
pub mod rules;
pub mod table;
pub mod versions;
