// Branches, which are the paths that begin alike, and the first path of a branch: a walk along the labels
// at hand, or along sharper ones, or step by step with labels made anew.
#![tactic(auto)]

mod all;
mod first;
mod walk;

pub use all::shortest;
pub use exits::Step;
pub use first::{Tail, first_path};
