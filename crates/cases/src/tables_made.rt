// Each refusal of a table, the smaller number first, and tables at their limits.

use crate::sample::{neighbour_table, refusal};
use std::test::Fail;

#[test]
fn sizes(rt: HostRuntime) -> Result<(), Fail> {
    let heap = rt.alloc();
    for (vertices, layers) in [(0, 1), (1025, 1), (1, 0), (1, 7)] {
        let outcome = neighbour_table(heap, vertices, layers, &[0], &[])?;
        assert_eq!(rt; refusal(outcome), Some(1));
    }
    Ok(())
}

#[test]
fn shapes(rt: HostRuntime) -> Result<(), Fail> {
    let heap = rt.alloc();
    assert_eq!(rt;
        refusal(neighbour_table(heap, 2, 1, &[0, 1], &[1])?),
        Some(2)
    );
    assert_eq!(rt;
        refusal(neighbour_table(heap, 2, 1, &[1, 1, 1], &[1])?),
        Some(2)
    );
    assert_eq!(rt;
        refusal(neighbour_table(heap, 3, 1, &[0, 2, 1, 2], &[1, 2])?),
        Some(2)
    );
    assert_eq!(rt;
        refusal(neighbour_table(heap, 2, 1, &[0, 1, 1], &[1, 0])?),
        Some(2)
    );
    Ok(())
}

#[test]
fn rows(rt: HostRuntime) -> Result<(), Fail> {
    let heap = rt.alloc();
    assert_eq!(rt;
        refusal(neighbour_table(heap, 3, 1, &[0, 2, 3, 4], &[2, 1, 0, 0])?),
        Some(3)
    );
    assert_eq!(rt;
        refusal(neighbour_table(heap, 3, 1, &[0, 2, 3, 4], &[1, 1, 0, 0])?),
        Some(3)
    );
    assert_eq!(rt;
        refusal(neighbour_table(heap, 2, 1, &[0, 1, 2], &[2, 0])?),
        Some(3)
    );
    assert_eq!(rt;
        refusal(neighbour_table(heap, 2, 1, &[0, 1, 2], &[0, 0])?),
        Some(3)
    );
    Ok(())
}

#[test]
fn mutual(rt: HostRuntime) -> Result<(), Fail> {
    let heap = rt.alloc();
    assert_eq!(rt;
        refusal(neighbour_table(heap, 2, 1, &[0, 1, 1], &[1])?),
        Some(4)
    );
    assert_eq!(rt;
        refusal(neighbour_table(heap, 3, 1, &[0, 1, 1, 2], &[1, 0])?),
        Some(4)
    );
    assert_eq!(rt;
        refusal(neighbour_table(heap, 1, 6, &[0, 0, 0, 0, 0, 0, 0], &[])?),
        None
    );
    assert_eq!(rt;
        refusal(neighbour_table(heap, 2, 1, &[0, 1, 2], &[1, 0])?),
        None
    );
    Ok(())
}
