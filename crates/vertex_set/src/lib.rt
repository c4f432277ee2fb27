// Sets of vertices: sixteen words of bits and the number of members.

#![tactic(auto)]

mod error;
mod set;

pub use error::{Refusal, SetError};
pub use set::VertexSet;
pub use set::members::Members;
