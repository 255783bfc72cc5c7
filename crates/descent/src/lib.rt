// The search that holds only one partial route, depth first, on slices.
#![tactic(auto)]

mod columns;
mod depth;

pub use columns::Columns;
pub use depth::{Cut, Held, Task, search};
