// Orders, vectors and cores: the largest group in which everyone keeps the demanded strengths.

#![tactic(auto)]

mod error;
mod order;
mod peeling;
mod shrinking;
mod theorems;

pub use error::PeelError;
pub use order::is_order;
pub use peeling::peel;
pub use shrinking::shrink;
pub use theorems::{core_is_one, groups_lie_in_core, higher_core_lies_inside, zero_core_is_all};
pub use vertex_set::Refusal;
