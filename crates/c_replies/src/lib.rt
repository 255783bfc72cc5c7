// The answers of all calls as the C functions return them: eight numbers, or three and the state of a week.
#![tactic(auto)]

mod reply;
mod values;
mod weeks;

pub use reply::Reply;
pub use values::Values;
pub use weeks::WeekReply;
