// The call that searches for the path whose greatest regret is least, depth first: Search. It asks nothing of
// its caller.
#![tactic(auto)]

mod deciding;
pub mod search;
mod tables;

pub use deciding::Found;
