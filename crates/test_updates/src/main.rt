// The tests of Update: each case holds the answer and the whole image to a plain search for the winning
// records, and the program prints, for each kind of case, how many agreed and how many differed.
//
// The file plain_update.rt has the plain answers, written apart from the library, and the others make the
// cases.
#![tactic(auto)]

mod cases;
mod plain_update;
mod random_lists;

use std::io;

fn main(rt: HostRuntime) -> io::Result<()> {
    cases::run(&rt)?;
    random_lists::run(&rt)
}
