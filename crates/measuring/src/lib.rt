// The greatest regret of a path, and each column's least cost, in a network whose columns stand in two slices.
#![tactic(auto)]

mod arcs;
mod bests;
mod columns;
mod excesses;
mod measuring;
mod sums;

pub use bests::{ColumnLabels, column_bests};
pub use columns::Columns;
pub use excesses::Measure;
pub use measuring::measure;
