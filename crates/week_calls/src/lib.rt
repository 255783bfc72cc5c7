// The calls on a week in which roads close and reopen: Fresh and Event. Neither asks anything of its caller.
// What the network, the question and the lent workspace have to do with each other (`Asked`) is a clause of three
// functions: network and question are asked of together with the workspace's room, which is lent anew to each call. That an
// event's arc is one of the network's (`arc`) is a clause as well: `arc` and `close` come from C as two numbers, part in
// `change`, and below it the arc goes on alone.
#![tactic(auto)]

pub mod event;
pub mod fresh;
mod running;
mod standing;
mod week;

pub use week::{Week, Weekly};
