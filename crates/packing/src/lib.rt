// Build and Unpack, which ask nothing of their caller: lists written as an image, and an
// image's lists.
#![tactic(auto)]

pub mod build;
pub mod unpack;
