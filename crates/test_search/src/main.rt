// The tests of Search: each case holds what it gave, and the lent slice, to an answer that is known or computed
// apart from the library, and the program prints, for each kind of case, how many agreed and how many
// differed.
//
// The file search_cases.rt has networks whose answers are written down, and search_random.rt holds Search to
// the crate test_enumerate: the path to all paths, the count of arcs tried to the words of the rule, and the
// figure to a settled Robust's. Images that Search refuses are tested by the program test_images.
#![tactic(auto)]

mod search_cases;
mod search_random;

use std::io;

fn main(rt: HostRuntime) -> io::Result<()> {
    search_cases::run(&rt)?;
    search_random::run(&rt)
}
