// What is left of a workspace: its first entries written out, a row each, and then zeros.
#![tactic(auto)]

mod clearing;
mod rows;

pub use clearing::clear;
pub use rows::write_rows;
