// An accepted image read for the layers above: which of its arcs are in, these in a star with their costs, and
// one column made ready for the search of paths.
#![tactic(auto)]

mod filling;
mod loading;
mod network;
mod reading;
mod selecting;

pub use loading::{label_nodes, load_all, load_common_left, load_left, load_whole};
pub use network::Network;
pub use reading::read_arcs;
pub use selecting::number_arcs;
