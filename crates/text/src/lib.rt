// Reads the lines of a script: records, commands, draws. It knows no node.
#![tactic(auto)]

mod command;
mod line;
mod records;

pub use command::{Command, Phase};
pub use line::{Line, read_line};
pub use records::Records;
