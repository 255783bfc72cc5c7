// The call that seeks one arc of an image: Find. It asks nothing of its caller.
#![tactic(auto)]

pub mod find;

pub use find::Found;
