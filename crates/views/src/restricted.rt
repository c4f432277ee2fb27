ghost use Rattle.std.specs.Prelude.{◌≡◌};
ghost use Rattle.vertex_set.specs.Members.{members};
ghost use Rattle.views.specs.Views.{restricted};
ghost use Rattle.views.specs.Duties.{restricted_duties};

use network::Network;
use vertex_set::VertexSet;

// A network restricted to a group: only the ties among its members count.
#[derive(Drop)]
pub struct Restricted<'a, N> {
    network: &'a N,
    within: VertexSet,
}

impl<'a, N> Restricted<'a, N> {
    // The network restricted to the group.
    pub fn new(network: &'a N, within: VertexSet) -> Restricted<'a, N>
        ensures network { result.network.now ≡ network.now }
        ensures within { result.within ≡ within }
    {
        Restricted { network, within }
    }
}

impl<'a, N: Network> Network for Restricted<'a, N> {
    const HIGHEST: u16 = N::HIGHEST;

    ghost stated = { N.Network.stated };

    ghost means = { λ t. restricted (members t.within) (N.Network.means t.network.now) };

    fn highest_strength() -> u16
        ensures { result ≡ N.Network.stated }
    {
        N::highest_strength()
    }

    fn vertices(&self) -> u16 {
        self.network.vertices()
    }

    fn layers(&self) -> u8 {
        self.network.layers()
    }

    fn strength(&self, layer: u8, group: &VertexSet, vertex: u16) -> u16 {
        if !self.within.contains(vertex) {
            return 0;
        }
        let common = group.intersection(&self.within);
        self.network.strength(layer, &common, vertex)
    }

    ghost duties = { λ t. restricted_duties N.Network.stated (members t.within) (N.Network.means t.network.now) (N.Network.duties t.network.now) };
}
