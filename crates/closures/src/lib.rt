// Arcs that are closed beside an image: a map with a bit for each arc, and what a closure can touch.
#![tactic(auto)]

mod map;
mod standing;

pub use map::{closed_roads, is_closed, turn};
pub use standing::touches;
