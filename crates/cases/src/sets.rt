// Sets at the edges of their words and of their range.

use std::test::Fail;
use vertex_set::{Refusal, SetError, VertexSet};

#[test]
fn edges(rt: HostRuntime) -> Result<(), Fail> {
    let mut set = VertexSet::new();
    for v in [1023, 0, 64, 63] {
        assert_eq!(rt; set.insert(v), Ok(true));
    }
    assert_eq!(rt; set.insert(64), Ok(false));
    assert_eq!(rt; set.insert(1024), Err(SetError::OutOfRange));
    assert_eq!(rt; SetError::OutOfRange.number(), 20);
    assert!(rt; !set.remove(1024) && set.remove(63) && !set.remove(63));
    assert_eq!(rt; set.len(), 3);
    let list = set.to_vec(rt.alloc())?;
    assert!(rt; list.len() == 3);
    assert!(rt; list[0] == 0 && list[1] == 64 && list[2] == 1023);
    assert_eq!(rt; set.first_from(65), Some(1023));
    assert_eq!(rt; VertexSet::below(1024).first_from(1024), None);
    Ok(())
}

#[test]
fn parts(rt: HostRuntime) {
    let low = VertexSet::below(100);
    let all = VertexSet::below(2000);
    assert_eq!(rt; all.len(), 1024);
    assert!(rt; low.is_subset(&all) && !all.is_subset(&low));
    assert_eq!(rt; all.difference(&low).len(), 924);
    assert_eq!(rt; all.intersection(&low).len(), 100);
    assert!(rt; low.difference(&all).is_empty() && VertexSet::below(0).is_empty());
}
