// Networks seen through others: restricted, relative, and a pile of both.

use crate::pile::peel_pile;
use crate::sample::{four, weight_table};
use cores::peel;
use network::Network;
use std::test::Fail;
use vertex_set::VertexSet;
use views::{Relative, Restricted};

// 0, 1 and 3. (The program has the same: a crate for it would be longer than it is.)
fn without_two() -> VertexSet {
    let mut group = VertexSet::below(4);
    group.remove(2);
    group
}

#[test]
fn restricted(rt: HostRuntime) -> Result<(), Fail> {
    let network = four(rt.alloc())?;
    let view = Restricted::new(&network, without_two());
    let group = VertexSet::below(3);
    assert_eq!(rt; view.strength(0, &group, 0), 1);
    assert_eq!(rt; view.strength(0, &group, 2), 0);
    assert_eq!(rt; view.strength(1, &group, 3), 0);
    assert!(rt; view.vertices() == 4 && view.layers() == 2);
    let mut core = VertexSet::new();
    peel(&view, &[0, 1], &[0, 0], &mut core)?;
    assert_eq!(rt; core.len(), 4);
    peel(&view, &[0, 1], &[1, 0], &mut core)?;
    assert!(rt; core.contains(0) && core.contains(1) && core.len() == 2);
    Ok(())
}

#[test]
fn relative(rt: HostRuntime) -> Result<(), Fail> {
    let network = four(rt.alloc())?;
    let view = Relative::new(&network);
    let group = VertexSet::below(2);
    assert_eq!(rt; view.strength(0, &group, 0), 500);
    assert_eq!(rt; view.strength(0, &group, 3), 0);
    assert_eq!(rt; view.strength(1, &group, 0), 1000);
    assert_eq!(rt; view.strength(2, &group, 0), 0);
    let weights = weight_table(rt.alloc(), 3, 1, &[0, 2, 1, 65535, 0, 65535, 0, 0, 0])??;
    let view = Relative::new(&weights);
    assert_eq!(rt; view.strength(0, &group, 0), 666);
    assert_eq!(rt; view.strength(0, &group, 1), 1000);
    Ok(())
}

// Within 0, 1 and 2 the weights of 0 are 400 in all, and 300 of these are for 1.
#[test]
fn pile(rt: HostRuntime) -> Result<(), Fail> {
    let weights = [0, 300, 100, 600, 300, 0, 50, 50, 100, 100, 0, 0, 9, 9, 9, 0];
    let table = weight_table(rt.alloc(), 4, 1, &weights)??;
    let lower = VertexSet::below(3);
    let mut core = VertexSet::new();
    peel_pile(&table, lower, without_two(), &[0], &[750], &mut core)?;
    assert!(rt; core.contains(0) && core.contains(1) && core.len() == 2);
    peel_pile(&table, lower, without_two(), &[0], &[751], &mut core)?;
    assert!(rt; core.is_empty());
    peel_pile(&table, lower, without_two(), &[0], &[0], &mut core)?;
    assert_eq!(rt; core.len(), 4);
    Ok(())
}
