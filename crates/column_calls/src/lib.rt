// The calls that read one column of an image: Label, Shortest and Rank. None asks anything of its caller.
#![tactic(auto)]

mod first_path;
mod first_paths;
pub mod label;
pub mod rank;
pub mod shortest;
mod trip;

pub use shortest::Path;
