// A plain enumeration of all loopless paths in a network of 2 to 8 nodes, and what REFERENCE says
// of them. The tests hold the library to it. It shares no code with the library and has no
// cleverness: every path is written down with its cost in every column, and each answer is read off
// these rows.
//
// A network is given by Build's two lists: its arcs, tail and head in turn, and its costs, column
// by column. An arc may be closed in a column; every path of arcs is written down, and in a column
// where one of its arcs is closed it has the mark in place of a cost.
#![tactic(auto)]

mod arcs;
mod closing;
mod costs;
mod descending;
mod deviations;
mod order;
mod paths;
mod stopping;

pub use arcs::check_list;
pub use closing::{open_count, open_everywhere};
pub use costs::{Costs, in_column, path_costs};
pub use descending::{Descent, labels_of, node_labels, search};
pub use deviations::{Measure, regret};
pub use order::{UNREACHED, bests, first_least, first_open, labels, rank};
pub use paths::{Path, Paths, Row, length};
pub use stopping::{Choice, robust};
