// The tree of all nonempty cores: what it is, and its laws. The functions do nothing; each carries
// a theorem in its contract.

#![tactic(auto)]

mod changes;
mod shape;

pub use changes::{
    front_of_network, off_in_either_order, off_needs_no_more, off_network, one_in_front,
    one_taken_off,
};
pub use shape::{
    cores_split, lines_lie_together, lnz_is_last, one_parent, one_path, one_tree, records_cores,
    room_is_counted,
};
