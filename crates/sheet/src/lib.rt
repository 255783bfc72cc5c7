// The sheet (REFERENCE, section 7): Robust's answer on an image as lines of text. No call asks
// anything of its caller.
#![tactic(auto)]

mod lines;
mod printing;
mod words;

pub use printing::{TooShort, sheet};
