// The highest strength that each kind states.

use crate::sample::{four, weight_table};
use network::Network;
use std::test::Fail;
use vertex_set::VertexSet;
use views::{Relative, Restricted};

// The constant, and what the function answers: no contract says that they are the same.
fn stated<N: Network>(_: &N) -> [u16; 2] {
    [N::HIGHEST, N::highest_strength()]
}

#[test]
fn constants(rt: HostRuntime) -> Result<(), Fail> {
    let ties = four(rt.alloc())?;
    assert_eq!(rt; stated(&ties), [1023, 1023]);
    let within = Restricted::new(&ties, VertexSet::new());
    assert_eq!(rt; stated(&within), [1023, 1023]);
    let weights = weight_table(rt.alloc(), 1, 1, &[0])??;
    assert_eq!(rt; stated(&weights), [65535, 65535]);
    let relative = Relative::new(&weights);
    assert_eq!(rt; stated(&relative), [1000, 1000]);
    let pile = Restricted::new(&relative, VertexSet::new());
    assert_eq!(rt; stated(&pile), [1000, 1000]);
    Ok(())
}
