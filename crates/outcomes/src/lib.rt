// What each call comes to, for every input, is defined in specs/Calls.antt. Here are the rows of the refusal
// table that calls share, and what they write.
#![tactic(auto)]

mod rows;
mod writing;

pub use rows::{check_ends, check_ranking, check_search, is_one_of};
pub use writing::{narrow, write_narrow, write_path};
