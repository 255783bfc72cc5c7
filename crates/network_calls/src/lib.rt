// The calls that read all columns of an image: Regret, the greatest regret of a given path, and Robust, the
// path whose greatest regret is least. None asks anything of its caller.
// That start and goal are two nodes stays a clause here, where column_calls has its Trip: Search and a week hold
// them in structs of their own, and would make another one only to hand them on.
// So does that the columns are those of the arcs open in every column (`common`), and that `bests` has a place for each
// (`bests_long`): the columns are measuring's and shared, the bests are lent to be written, and a struct of both would
// be taken apart again before each call of measuring. Column, start, goal and K go on as the four numbers that C hands
// down: one call asks with them, and a week's `Question` is the week's own.
#![tactic(auto)]

mod chosen;
mod common;
mod measured;
mod node_list;
mod pricing;
pub mod regret;
pub mod robust;

pub use choosing::Decision;
pub use chosen::choose_left;
pub use common::load_columns;
pub use measured::{Measure, measure_path};
pub use pricing::own_bests;
