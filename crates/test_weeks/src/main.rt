// The tests of Fresh and Event: each state is held to a plain one, and what it shows to Robust on the image of the
// arcs that are left. The program prints, for each kind of case, how many agreed and how many differed, and tells
// apart closures by which the answer stands, events by which it is found anew, events that change nothing and
// events that are refused.
//
// The files map.rt, left.rt and verdict.rt have the plain answers, written apart from the library: the map by halving
// its words, Robust by an image without the closed arcs, and the standing rule by all paths of test_enumerate.
// held.rt makes the calls, step.rt one event of a week, and the others make the cases.
#![tactic(auto)]

mod all_roads;
mod cases;
mod drawing;
mod held;
mod largest;
mod left;
mod made_states;
mod map;
mod random_networks;
mod random_weeks;
mod refusals;
mod step;
mod verdict;

use std::io;

fn main(rt: HostRuntime) -> io::Result<()> {
    cases::run(&rt)?;
    refusals::run(&rt)?;
    largest::run(&rt)?;
    random_networks::run(&rt)
}
