ghost use Rattle.std.specs.Prelude.{◌≡◌, OnOk, IfErr, OnErr};
ghost use Rattle.vertex_set.specs.Members.{members};
ghost use Rattle.vertex_set.specs.Refusals.{FirstBroken};
ghost use Rattle.cores.specs.Cores.{Core};
ghost use Rattle.cores.specs.Refusals.{refusal, Rule, EachRule};

use crate::error::PeelError;
use crate::order::is_order;
use crate::shrinking::shrink;
use network::Network;
use vertex_set::VertexSet;

// Puts the core for the order and the vector into the group. The two come as two lists, since one
// order serves many vectors, and a vector of another length is refused.
pub fn peel<N: Network>(
    network: &N,
    order: &[u8],
    vector: &[u16],
    group: &mut VertexSet,
) -> Result<(), PeelError>
    ensures kept { OnOk result
        (EachRule (N.Network.means network.now) order.now vector.now) }
    ensures core { OnOk result
        (Core (N.Network.means network.now) order.now vector.now (members group.new)) }
    ensures err { IfErr result
        (FirstBroken refusal (Rule (N.Network.means network.now) order.now vector.now)) }
    ensures unchanged { OnErr result (group.new ≡ group.old) }
{
    if !is_order(network, order) {
        return Err(PeelError::Order);
    }
    if vector.len() != order.len() {
        return Err(PeelError::Vector);
    }
    *group = VertexSet::below(network.vertices());
    shrink(network, order, vector, group);
    Ok(())
}
