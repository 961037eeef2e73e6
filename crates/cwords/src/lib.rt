// The words of a C program, and the values of the rules.
#![tactic(auto)]

pub mod nodes;
pub mod read;
pub mod write;
