// Answers a script call by call, or tells what its calls did to the list: standard input to standard output, in constant memory.
#![tactic(auto)]

mod calls;
mod input;

pub use input::{audit, run};
