// Tables for the tests, and what becomes of lists that are refused.

use std::alloc::{AllocError, Global};
use std::test::Fail;
use tables::{NeighbourTable, TableError};
use vertex_set::Refusal;
use weights::{WeightError, WeightTable};

// The number of the refusal, if it is one. (The number is what is promised, so the tests compare
// it.)
pub(crate) fn refusal<T: Drop, E: Refusal + Drop>(outcome: Result<T, E>) -> Option<u8> {
    outcome.err().map(|e| e.number())
}

// The neighbour table of the given lists, or its refusal. (The program has one like it: a crate for
// the two would be longer than they are. The arguments are those of the constructor.)
pub(crate) fn neighbour_table(
    heap: Global,
    vertices: u16,
    layers: u8,
    starts: &[u32],
    neighbours: &[u16],
) -> Result<Result<NeighbourTable, TableError>, AllocError> {
    let starts = Vec::from_slice(heap, starts)?;
    let neighbours = Vec::from_slice(heap, neighbours)?;
    Ok(NeighbourTable::new(vertices, layers, starts, neighbours))
}

// The table of the given weights, or its refusal. (The arguments are those of the constructor.)
pub(crate) fn weight_table(
    heap: Global,
    vertices: u16,
    layers: u8,
    weights: &[u16],
) -> Result<Result<WeightTable, WeightError>, AllocError> {
    let weights = Vec::from_slice(heap, weights)?;
    Ok(WeightTable::new(vertices, layers, weights))
}

// 4 vertices; in layer a the ties 0-1, 0-2 and 1-2, in layer b the ties 0-1 and 2-3.
pub(crate) fn four(heap: Global) -> Result<NeighbourTable, Fail> {
    let starts = [0, 2, 4, 6, 6, 7, 8, 9, 10];
    Ok(neighbour_table(heap, 4, 2, &starts, &[1, 2, 0, 2, 0, 1, 1, 0, 3, 2])??)
}
