// What every kind of multilayer network offers, and what each must show.

#![tactic(auto)]

ghost use Rattle.std.specs.Prelude.{◌≡◌, ℕ};
ghost use Rattle.network.specs.Networks.{Multilayer, Duties};
ghost use Rattle.vertex_set.specs.Members.{members};

use vertex_set::VertexSet;

mod size;

pub use size::Size;

// A network of vertices 0 to n - 1, tied in several layers, which are numbered from 0.
pub trait Network {
    // The highest strength that a network of this kind can have.
    const HIGHEST: u16;

    // That number, for clauses. (A ghost member of the constant's name would be proved equal to it,
    // but not in an impl that has a type parameter, as a view's.)
    ghost stated: { ℕ };

    // What the network means.
    ghost means: { Self → Multilayer };

    // The constant again. Generic code asks this function and not the constant, since only its
    // answer is tied to the number that the duties speak of.
    fn highest_strength() -> u16
        ensures { result ≡ stated };

    // The number of vertices.
    fn vertices(&self) -> u16
        ensures { result ≡ (means self.now).vertices };

    // The number of layers.
    fn layers(&self) -> u8
        ensures { result ≡ (means self.now).layers };

    // How strongly the vertex is tied, in the layer, to the group.
    fn strength(&self, layer: u8, group: &VertexSet, vertex: u16) -> u16
        ensures { result ≡ (means self.now).strength layer (members group.now) vertex };

    // That its meaning keeps the duties.
    ghost duties: { (x : Self) → Duties stated (means x) };
}
