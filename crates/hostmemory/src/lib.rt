// A plan, a job list and a run in the words that a host lends: decoding and encoding.
#![tactic(auto, unfolding(crate::specs::Memory::plan_in, crate::specs::Memory::plan_of, crate::specs::Memory::list_in, crate::specs::Memory::list_held, crate::specs::Memory::run_in, crate::specs::Memory::run_of, crate::specs::Memory::marks_hold, crate::specs::Memory::plan_put, crate::specs::Memory::plan_out, crate::specs::Memory::list_put, crate::specs::Memory::slot_put, crate::specs::Memory::run_put))]

mod jobs;
pub mod lists;
pub mod plans;
pub mod runs;
pub mod sizes;
