// The ranked list of paths: the first path of each branch is a candidate, and the first candidate is the
// next path, whose branches are then looked into.
// What is asked, the graph and its labels are one struct, `Query`. The workspace and the number of its entries are none,
// and `used`, `barred` and `path` neither: each contract compares them before and after the call (`Changed`, `Restored`),
// and a fact about them now, which a struct could keep (`Filled`, `Deviation`), is a clause about the state before alone.
#![tactic(auto)]

mod branches;
mod query;
mod ranking;
mod splitting;

pub use query::Query;
pub use ranking::{begin, rank_paths};
pub use splitting::split;
