// Networks that are given by tables.

#![tactic(auto)]

mod each;
mod error;
mod neighbour;
mod right_rows;
mod rows;

pub use error::TableError;
pub use neighbour::NeighbourTable;
pub use vertex_set::Refusal;
