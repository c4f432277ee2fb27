ghost use Rattle.std.specs.Prelude.{◌≡◌, ◌≤◌};
ghost use Rattle.vertex_set.specs.Members.{members};
ghost use Rattle.vertex_set.specs.Sets.{Same, below};
ghost use Rattle.views.specs.Views.{relative, thousandths};
ghost use Rattle.views.specs.Duties.{relative_duties};

use network::Network;
use vertex_set::VertexSet;

// The strength of a vertex that keeps all its ties.
const FULL: u16 = 1000;

// A network in relative strengths: in thousandths of a vertex's strength among all vertices. The
// set of these holds 0 to 1,023, so that it serves any network: what is no vertex does not count.
#[derive(Drop)]
pub struct Relative<'a, N> {
    network: &'a N,
    all: VertexSet,
    ghost whole: { Same (members all) (below 1024) },
}

impl<'a, N> Relative<'a, N> {
    // The network in relative strengths.
    pub fn new(network: &'a N) -> Relative<'a, N>
        ensures { result.network.now ≡ network.now }
    {
        Relative {
            network,
            all: VertexSet::below(1024),
        }
    }
}

impl<'a, N: Network> Network for Relative<'a, N> {
    const HIGHEST: u16 = FULL;

    ghost stated = { 1000 };

    ghost means = { λ t. relative (N.Network.means t.network.now) };

    fn highest_strength() -> u16
        ensures { result ≡ 1000 }
    {
        FULL
    }

    fn vertices(&self) -> u16 {
        self.network.vertices()
    }

    fn layers(&self) -> u8 {
        self.network.layers()
    }

    fn strength(&self, layer: u8, group: &VertexSet, vertex: u16) -> u16 {
        let part = self.network.strength(layer, group, vertex);
        let whole = self.network.strength(layer, &self.all, vertex);
        in_thousandths(part, whole)
    }

    ghost duties = { λ t. relative_duties N.Network.stated (N.Network.means t.network.now) (N.Network.duties t.network.now) };
}

// The part in thousandths of the whole, rounded down; 0 if the whole is 0.
fn in_thousandths(part: u16, whole: u16) -> u16
    requires { part ≤ whole }
    ensures { result ≡ thousandths part whole }
{
    if whole == 0 {
        return 0;
    }
    (u32::from(FULL) * u32::from(part) / u32::from(whole)) as u16
}
