// The body of a rule: one action, a tree of nodes.
#![tactic(auto)]

pub mod reader;
pub mod text;
pub mod way;
