// Cores, and what peeling refuses.

use crate::sample::{four, neighbour_table, refusal};
use cores::peel;
use network::Network;
use std::test::Fail;
use tables::NeighbourTable;
use vertex_set::VertexSet;

// Peels into a group that holds 9 alone, and gives the number of the refusal, if it is refused.
// (The arguments are those of `peel`.)
fn peeled(
    network: &NeighbourTable,
    order: &[u8],
    vector: &[u16],
    group: &mut VertexSet,
) -> Result<Option<u8>, Fail> {
    *group = VertexSet::new();
    group.insert(9)?;
    Ok(refusal(peel(network, order, vector, group)))
}

#[test]
fn strengths(rt: HostRuntime) -> Result<(), Fail> {
    let network = four(rt.alloc())?;
    let mut group = VertexSet::below(2);
    group.insert(1000)?;
    assert_eq!(rt; network.strength(0, &group, 0), 1);
    assert_eq!(rt; network.strength(0, &group, 2), 2);
    assert_eq!(rt; network.strength(1, &group, 3), 0);
    assert_eq!(rt; network.strength(2, &group, 0), 0);
    assert_eq!(rt; network.strength(0, &group, 4), 0);
    Ok(())
}

#[test]
fn refusals(rt: HostRuntime) -> Result<(), Fail> {
    let network = four(rt.alloc())?;
    let mut group = VertexSet::new();
    assert_eq!(rt; peeled(&network, &[], &[1], &mut group)?, Some(6));
    assert_eq!(rt; peeled(&network, &[0, 0], &[1, 1], &mut group)?, Some(6));
    assert_eq!(rt; peeled(&network, &[0, 2], &[1], &mut group)?, Some(6));
    assert_eq!(rt; peeled(&network, &[0, 1], &[1], &mut group)?, Some(8));
    assert!(rt; group.contains(9) && group.len() == 1);
    assert_eq!(rt; peeled(&network, &[1, 0], &[1, 1], &mut group)?, None);
    assert!(rt; group.contains(0) && group.contains(1) && group.len() == 2);
    Ok(())
}

// 0 has two neighbours until 1 and 2, who have one each, are gone.
#[test]
fn unravels(rt: HostRuntime) -> Result<(), Fail> {
    let star = neighbour_table(rt.alloc(), 3, 1, &[0, 2, 3, 4], &[1, 2, 0, 0])??;
    let mut group = VertexSet::new();
    assert_eq!(rt; peeled(&star, &[0], &[2], &mut group)?, None);
    assert!(rt; group.is_empty());
    assert_eq!(rt; peeled(&star, &[0], &[1], &mut group)?, None);
    assert_eq!(rt; group.len(), 3);
    Ok(())
}
