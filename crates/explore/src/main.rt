// Shows cores over each kind of network, and how what is wrong is refused. The sample network has
// 4 vertices: in layer a the ties 0-1, 0-2 and 1-2, in layer b the ties 0-1 and 2-3.

#![tactic(auto)]

mod show;

use anyhow::bail;
use cores::peel;
use network::Network;
use show::Numbers;
use std::alloc::{AllocError, Global};
use tables::{NeighbourTable, TableError};
use vertex_set::{Refusal, VertexSet};
use views::{Relative, Restricted};
use weights::WeightTable;

// Where the rows of 0, 1, 2 and 3 start, in layer a and then in layer b; and the rows.
const STARTS: [u32; 9] = [0, 2, 4, 6, 6, 7, 8, 9, 10];

const NEIGHBOURS: [u16; 10] = [1, 2, 0, 2, 0, 1, 1, 0, 3, 2];

// The same, but that 3 does not name 2 in layer b.
const ONE_SIDED: [u32; 9] = [0, 2, 4, 6, 6, 7, 8, 9, 9];

const VECTORS: [[u16; 2]; 7] = [[0, 0], [1, 0], [1, 1], [0, 1], [2, 0], [2, 1], [0, 2]];

// The row of weights of each of 4 vertices, in one layer.
const WEIGHTS: [[u16; 4]; 4] = [
    [0, 300, 100, 600],
    [300, 0, 50, 50],
    [100, 100, 0, 0],
    [40000, 40000, 0, 0],
];

fn main(rt: HostRuntime) -> anyhow::Result<()> {
    run(&rt)
}

fn run(rt: &(impl Print + Alloc<A = Global>)) -> anyhow::Result<()> {
    let Ok(network) = sample(rt.alloc(), &STARTS, &NEIGHBOURS)? else {
        bail!("the sample network is refused");
    };
    for vector in VECTORS {
        show_core(rt, &network, &[0, 1], &vector)?;
    }
    show_views(rt, &network)?;
    show_weights(rt)?;
    show_refusals(rt, &network)
}

// The table of the sample's vertices and layers with the given rows. (The tests have one like it,
// of any size: a crate for the two would be longer than they are.)
fn sample(
    heap: Global,
    starts: &[u32],
    neighbours: &[u16],
) -> Result<Result<NeighbourTable, TableError>, AllocError> {
    let starts = Vec::from_slice(heap, starts)?;
    let neighbours = Vec::from_slice(heap, neighbours)?;
    Ok(NeighbourTable::new(4, 2, starts, neighbours))
}

// The vertices 0, 1 and 3. (The tests have the same: a crate for it would be longer than it is.)
fn without_two() -> VertexSet {
    let mut group = VertexSet::below(4);
    group.remove(2);
    group
}

// Cores over the sample network restricted to 0, 1 and 3, and over it in relative strengths.
fn show_views(
    rt: &(impl Print + Alloc<A = Global>),
    network: &NeighbourTable,
) -> anyhow::Result<()> {
    let restricted = Restricted::new(network, without_two());
    print!(rt; "restricted to 0,1,3: ")?;
    show_core(rt, &restricted, &[0, 1], &[1, 0])?;
    let relative = Relative::new(network);
    print!(rt; "relative: ")?;
    show_core(rt, &relative, &[0, 1], &[500, 1000])
}

// Cores over weights, and over a pile of views of them.
fn show_weights(rt: &(impl Print + Alloc<A = Global>)) -> anyhow::Result<()> {
    let mut weights = Vec::new(rt.alloc());
    for row in WEIGHTS {
        weights.extend_from_slice(&row)?;
    }
    let Ok(table) = WeightTable::new(4, 1, weights) else {
        bail!("the sample weights are refused");
    };
    print!(rt; "weights: ")?;
    show_core(rt, &table, &[0], &[350])?;
    let lower = Restricted::new(&table, VertexSet::below(3));
    let relative = Relative::new(&lower);
    let pile = Restricted::new(&relative, without_two());
    print!(rt; "restricted to 0,1,3, relative, restricted to 0,1,2, weights: ")?;
    show_core(rt, &pile, &[0], &[750])
}

// A table with a tie that only one side names, weights with an own weight, and an order that
// repeats a layer.
fn show_refusals(
    rt: &(impl Print + Alloc<A = Global>),
    network: &NeighbourTable,
) -> anyhow::Result<()> {
    print!(rt; "a tie on one side: ")?;
    show_outcome(rt, sample(rt.alloc(), &ONE_SIDED, &NEIGHBOURS[0..9])?)?;
    print!(rt; "an own weight: ")?;
    let own = Vec::from_slice(rt.alloc(), &[1])?;
    show_outcome(rt, WeightTable::new(1, 1, own))?;
    print!(rt; "the order aa: ")?;
    show_core(rt, network, &[0, 0], &[1, 1])
}

// Prints whether something was accepted, or else the number of the refusal.
fn show_outcome<T: Drop, E: Refusal + Drop>(
    rt: &impl Print,
    outcome: Result<T, E>,
) -> anyhow::Result<()> {
    match outcome {
        Ok(_) => println!(rt; "accepted")?,
        Err(e) => println!(rt; "refused={}", e.number())?,
    }
    Ok(())
}

// Prints the vector with its core, or the number of the refusal. (Order and vector come as `peel`
// has them.)
fn show_core<N: Network>(
    rt: &(impl Print + Alloc<A = Global>),
    network: &N,
    order: &[u8],
    vector: &[u16],
) -> anyhow::Result<()> {
    let mut core = VertexSet::new();
    let outcome = peel(network, order, vector, &mut core);
    if outcome.is_err() {
        return show_outcome(rt, outcome);
    }
    if core.is_empty() {
        println!(rt; "core={}:none", Numbers(vector))?;
    } else {
        let members = core.to_vec(rt.alloc())?;
        println!(rt; "core={}:{}", Numbers(vector), Numbers(&members))?;
    }
    Ok(())
}
