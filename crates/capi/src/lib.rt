// The calls as C functions (REFERENCE, section 4.14). Slices pass as pointer and length, in elements;
// the answer is returned by value. No function asks anything of its caller but that the slices are what
// they say. include/vihrolom.h declares them.
#![tactic(auto)]

mod images;
mod paths;
mod version;
mod weeks;

pub use c_replies::{Reply, WeekReply};
pub use images::{vihrolom_build, vihrolom_check, vihrolom_unpack, vihrolom_update};
pub use paths::{
    vihrolom_find, vihrolom_label, vihrolom_rank, vihrolom_regret, vihrolom_robust,
    vihrolom_search, vihrolom_shortest,
};
pub use version::vihrolom_version;
pub use weeks::{vihrolom_week_event, vihrolom_week_fresh};
