// The bytes of a manual's program: what they may be, and which of them is first at fault.
#![tactic(auto)]

pub mod examine;
pub mod record;
