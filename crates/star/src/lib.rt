// A graph in two slices. `star` has its topology: tails, heads and links to the next arc into the same
// head, a place for each arc; where the arcs out of each node begin; and the last arc into each node.
// `weights` has the costs of one column. Arcs rise by tail, then head. Nodes are numbered from 1: what has
// a place for each node has one place more, its first, which is not used.
#![tactic(auto)]

mod arcs;
mod assembling;
mod chains;
mod graph;
mod outs;

pub use arcs::{Sought, arc_between, find_arc};
pub use assembling::assemble;
pub use chains::chain;
pub use graph::Graph;
pub use outs::out_starts;
