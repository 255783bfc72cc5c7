// What the test programs share of the library's calls: answers as numbers, and the calls of the path layer
// held to their answers.
#![tactic(auto)]

pub mod answers;
pub mod find_calls;
pub mod path_calls;
pub mod rank_calls;
pub mod refused_images;
pub mod robust_calls;
pub mod searches;
