// Networks that are seen through another one.

#![tactic(auto)]

mod relative;
mod restricted;

pub use relative::Relative;
pub use restricted::Restricted;
