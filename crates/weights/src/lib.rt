// Networks that are given by tables of weights.

#![tactic(auto)]

mod error;
mod rows;
mod table;

pub use error::WeightError;
pub use table::WeightTable;
pub use vertex_set::Refusal;
