// The call that writes a list of records over the costs of an image: Update. It asks nothing of
// its caller.
#![tactic(auto)]

pub mod update;
