ghost use Rattle.std.specs.Prelude.{ℕ, ◌<◌, ◌≤◌, ◌↔◌, IsTrue, IfNone, IfSome};
ghost use Rattle.vertex_set.specs.Sets.{◌∈◌};
ghost use Rattle.vertex_set.specs.Members.{members};
ghost use Rattle.cores.specs.Cores.{CoreWithin, Strong, Short, Weak, EachStrong};

use network::Network;
use std::ops::Range;
use vertex_set::VertexSet;

// Peels the group: takes away a vertex that falls short in a layer, until none does. What is left
// is the largest group within it that meets the vector; so a group that contains the core becomes
// the core. A demand that the vector lacks counts as 0. (Order and vector come as two lists, as
// `peel` has them.)
pub fn shrink<N: Network>(network: &N, order: &[u8], vector: &[u16], group: &mut VertexSet)
    ensures { CoreWithin (N.Network.means network.now) order.now vector.now
        (members group.old) (members group.new) }
{
    let vertices = network.vertices();
    *group = group.intersection(&VertexSet::below(vertices));
    let mut first = 0;
    while let Some(vertex) = weak_from(network, order, vector, group, first) {
        group.remove(vertex);
        // Going round, the vertex before 0 is the last: on some networks, going on at 0 would take
        // the square of the time.
        first = vertex.checked_sub(1).unwrap_or(vertices - 1);
    }
}

// A member that falls short in a layer, if there is one. The search goes round from `first`, which
// is for speed; no clause speaks of it. It is two searches: a chain of the two ranges would ask at
// each vertex in which of them it is. (Network, order, vector and group stay apart, here and in
// `shrink`, `weak_in` and `is_weak`: through a struct each clause would be longer.)
fn weak_from<N: Network>(
    network: &N,
    order: &[u8],
    vector: &[u16],
    group: &VertexSet,
    first: u16,
) -> Option<u16>
    ensures none { IfNone result
        (EachStrong (N.Network.means network.now) order.now vector.now (members group.now)) }
    ensures some { IfSome result
        (Weak (N.Network.means network.now) order.now vector.now (members group.now)) }
{
    let vertices = network.vertices();
    let ahead = weak_in(network, order, vector, group, first..vertices);
    ahead.or_else(|| weak_in(network, order, vector, group, 0..first.min(vertices)))
}

// A member in the range that falls short in a layer, if there is one.
fn weak_in<N: Network>(
    network: &N,
    order: &[u8],
    vector: &[u16],
    group: &VertexSet,
    mut range: Range<u16>,
) -> Option<u16>
    ensures none { IfNone result ((v : ℕ) → range.start ≤ v → v < range.end
        → v ∈ members group.now
        → Strong (N.Network.means network.now) order.now vector.now (members group.now) v) }
    ensures some { IfSome result (λ v. (range.start ≤ v) × (v < range.end)
        × (v ∈ members group.now)
        × Short (N.Network.means network.now) order.now vector.now (members group.now) v) }
{
    range.find(|v| group.contains(*v) && is_weak(network, order, vector, group, *v))
}

// Whether the vertex falls short of a demand in its layer.
fn is_weak<N: Network>(
    network: &N,
    order: &[u8],
    vector: &[u16],
    group: &VertexSet,
    vertex: u16,
) -> bool
    ensures { IsTrue result
        ↔ Short (N.Network.means network.now) order.now vector.now (members group.now) vertex }
{
    order.iter().zip(vector).any(|(layer, demand)| {
        *demand > 0 && network.strength(*layer, group, vertex) < *demand
    })
}
