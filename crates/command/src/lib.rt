// The reader's commands: what a line of text says.

#![tactic(auto)]

pub mod hex;
pub mod line;
pub mod mistake;
#[cfg(test)]
mod tests;
pub mod verb;
mod words;
