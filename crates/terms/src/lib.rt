// The terms of a manual's program: its kinds of value, operators and nodes, and what may be refused about it.
#![tactic(auto)]

pub mod code;
pub mod input;
pub mod kind;
pub mod node;
pub mod refusal;
