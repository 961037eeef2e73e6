// What programs read and write by: an input read into a lent row, and a writer that keeps its first error.
#![tactic(auto)]

mod outlet;
mod row;

pub use outlet::Outlet;
pub use row::read_full;
