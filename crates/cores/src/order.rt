ghost use Rattle.std.specs.Prelude.{◌↔◌, IsTrue};
ghost use Rattle.cores.specs.Cores.{ValidOrder};

use network::Network;

// Whether the list is an order: some layers of the network, none of them twice.
pub fn is_order<N: Network>(network: &N, order: &[u8]) -> bool
    ensures { IsTrue result ↔ ValidOrder (N.Network.means network.now) order.now }
{
    let layers = network.layers();
    !order.is_empty()
        && order.iter().enumerate().all(|(i, layer)| *layer < layers && !order[..i].contains(layer))
}
