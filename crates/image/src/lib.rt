// The network image: its layout, the refusals of the table, and Check, which asks nothing of its
// caller; and what reads the bytes of an accepted image.
#![tactic(auto)]

mod bytes;
pub mod check;
mod layout;
mod reading;
mod refusal;
mod rows;

pub use bytes::Word;
pub use check::Sizes;
pub use layout::{cost_count, costs_start, image_length};
pub use reading::read_words;
pub use refusal::Refusal;
pub use rows::{CLOSED, check_arcs, check_costs, in_range, is_cost, is_node, is_taken};
