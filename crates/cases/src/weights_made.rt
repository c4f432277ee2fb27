// Each refusal of a weight table, the smaller number first, and what its weights add up to.

use crate::sample::{refusal, weight_table};
use network::Network;
use std::test::Fail;
use vertex_set::VertexSet;

#[test]
fn sizes(rt: HostRuntime) -> Result<(), Fail> {
    let heap = rt.alloc();
    for (vertices, layers) in [(0, 1), (129, 1), (1, 0)] {
        assert_eq!(rt;
            refusal(weight_table(heap, vertices, layers, &[])?),
            Some(1)
        );
    }
    assert_eq!(rt; refusal(weight_table(heap, 1, 7, &[1])?), Some(1));
    Ok(())
}

#[test]
fn refusals(rt: HostRuntime) -> Result<(), Fail> {
    let heap = rt.alloc();
    assert_eq!(rt; refusal(weight_table(heap, 2, 1, &[0, 1, 1])?), Some(2));
    assert_eq!(rt;
        refusal(weight_table(heap, 2, 1, &[9, 1, 1, 0, 0])?),
        Some(2)
    );
    assert_eq!(rt; refusal(weight_table(heap, 2, 1, &[0, 1, 1, 1])?), Some(5));
    assert_eq!(rt;
        refusal(weight_table(heap, 2, 2, &[0, 1, 1, 0, 65535, 0, 0, 0])?),
        Some(5)
    );
    assert_eq!(rt;
        refusal(weight_table(heap, 1, 6, &[0, 0, 0, 0, 0, 0])?),
        None
    );
    assert_eq!(rt; refusal(weight_table(heap, 128, 1, &[0; 16384])?), None);
    Ok(())
}

// 3 is no vertex; its place in a row is that of the next row's first weight.
#[test]
fn sums(rt: HostRuntime) -> Result<(), Fail> {
    let weights = [0, 40000, 40000, 7, 0, 65535, 0, 0, 0];
    let table = weight_table(rt.alloc(), 3, 1, &weights)??;
    let mut group = VertexSet::below(4);
    assert_eq!(rt; table.strength(0, &group, 0), 65535);
    assert_eq!(rt; table.strength(0, &group, 1), 65535);
    assert_eq!(rt; table.strength(0, &group, 2), 0);
    group.remove(2);
    assert_eq!(rt; table.strength(0, &group, 0), 40000);
    assert_eq!(rt; table.strength(0, &group, 1), 7);
    assert_eq!(rt; table.strength(1, &group, 0), 0);
    assert_eq!(rt; table.strength(0, &group, 3), 0);
    Ok(())
}
