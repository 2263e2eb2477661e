// The parts of a plan file: its layout, the head, one job, and the numbers after the jobs.
#![tactic(auto, unfolding(crate::specs::Records::head, crate::specs::Records::job_name, crate::specs::Records::one_job))]

pub mod head;
pub mod job;
pub mod layout;
pub mod numbers;
