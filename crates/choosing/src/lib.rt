// Robust: paths are ranked in one column, and the one with the least greatest regret is chosen, against bests
// that are given.
#![tactic(auto)]

mod answering;
mod contest;
mod counting;
mod searching;

pub use answering::{Decision, least_regret};
pub use contest::Contest;
