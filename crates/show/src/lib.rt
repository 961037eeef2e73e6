// Writes what a call answered, and the state that it left, as text.
#![tactic(auto)]

mod answers;
mod datagrams;
mod reasons;
mod salvaged;
mod state;

pub use answers::{put_answer, put_collected, put_events, put_one, widen};
pub use datagrams::{put_reading, put_saving, put_writing};
pub use reasons::put_grounds;
pub use salvaged::put_salvaged;
pub use state::{least, put_state};
