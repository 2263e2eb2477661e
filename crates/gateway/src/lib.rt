// For hosts in C and Rust: the libraries' calls on numbers and slices. A plan, a job list and a
// run are kept in words that the host lends.
#![tactic(auto, unfolding(crate::specs::Calls::read_call, crate::specs::Calls::write_call, crate::specs::Calls::judge_call, crate::specs::Calls::slack_call, crate::specs::Calls::draw_call, crate::specs::Calls::shortage_call, crate::specs::Calls::start_call, crate::specs::Calls::import_call, crate::specs::Calls::export_call, crate::specs::Calls::speed_call, crate::specs::Calls::log_call))]

mod answers;
pub mod drawing;
pub mod files;
pub mod judging;
pub mod lists;
pub mod metering;
pub mod slots;
