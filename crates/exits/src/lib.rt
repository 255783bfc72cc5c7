// The exits of a node: the next node by labels, among the arcs out of it.
#![tactic(auto)]

mod stepping;

pub use stepping::{Step, least_exit, tight_exit, via_below};
