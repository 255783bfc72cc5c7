// Sharper labels for a branch. A search outwards from the end of its beginning, guided by the labels at
// hand, finds by how much these fall short of what a path round the beginning costs; the labels of the
// nodes that it took are raised by that, and then each to what its node's exits allow. Labels that come
// through are consistent whatever the search found: no fact about it is needed.
#![tactic(auto)]

mod front;
mod raise;
mod search;
mod sharp;

pub use search::{LONGEST, Quest};
pub use sharp::sharpen;
