// The tests of the path layer. Each case holds what a call gave to what docs/REFERENCE.md says that
// it gives, and the program prints, for each kind of case, how many agreed and how many differed.
//
// The files path_*.rt test Label, Shortest and Regret, rank_*.rt Rank and robust_*.rt Robust, on the
// images of test_fixtures (cases.rt) and of random_networks.rt, and closed_cases.rt all of them on
// networks in which arcs are closed in columns. The answers come from REFERENCE,
// section 8, from networks whose paths are known, or from the crate test_enumerate, which is written
// apart from the library. Images and numbers that the calls refuse are tested by the program test_images.
#![tactic(auto)]

mod cases;
mod closed_cases;
mod path_cases;
mod path_lists;
mod path_random;
mod random_networks;
mod rank_cases;
mod rank_ladder;
mod rank_random;
mod robust_cases;
mod robust_ladder;
mod robust_random;

use std::io;

fn main(rt: HostRuntime) -> io::Result<()> {
    path_cases::run(&rt)?;
    rank_cases::run(&rt)?;
    rank_ladder::run(&rt)?;
    robust_cases::run(&rt)?;
    robust_ladder::run(&rt)?;
    closed_cases::run(&rt)?;
    random_networks::run(&rt)
}
