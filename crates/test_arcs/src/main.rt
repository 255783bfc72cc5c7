// The tests of Find: each case holds what it gave to a plain scan of the records and to a plain count of
// the looks, and the program prints, for each kind of case, how many agreed and how many differed.
//
// The file plain_search.rt has the plain answers, written apart from the library, and the others make the
// cases.
#![tactic(auto)]

mod find_cases;
mod find_random;
mod pairs;
mod plain_search;

use std::io;

fn main(rt: HostRuntime) -> io::Result<()> {
    find_cases::run(&rt)?;
    find_random::run(&rt)
}
