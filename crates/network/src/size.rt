ghost use Rattle.std.specs.Prelude.{◌≡◌, ◌+◌, ◌*◌, ◌<◌, ◌↔◌, IsSome, IfSome};
ghost use Rattle.network.specs.Sizes.{WithinLimits};

// How many vertices and layers a network has: 1 to MOST vertices, and 1 to 6 layers.
#[derive(Clone, Copy, PartialEq, Eq, Debug)]
pub struct Size<const MOST: u16> {
    pub vertices: u16,
    pub layers: u8,
    pub ghost within: { WithinLimits MOST vertices layers },
}

impl<const MOST: u16> Size<MOST> {
    // So many vertices and layers, if a network can have them.
    pub fn new(vertices: u16, layers: u8) -> Option<Size<MOST>>
        ensures fits { IsSome result ↔ WithinLimits MOST vertices layers }
        ensures vertices { IfSome result (λ size. size.vertices ≡ vertices) }
        ensures layers { IfSome result (λ size. size.layers ≡ layers) }
    {
        if 1 <= vertices && vertices <= MOST && 1 <= layers && layers <= 6 {
            Some(Size { vertices, layers })
        } else {
            None
        }
    }

    // How many rows there are: one for each layer and vertex.
    pub fn rows(&self) -> usize
        ensures { result ≡ self.now.layers * self.now.vertices }
    {
        usize::from(self.layers) * usize::from(self.vertices)
    }

    // The number of the row of the vertex in the layer: the rows stand layer by layer.
    pub fn row(&self, layer: u8, vertex: u16) -> usize
        ensures { result ≡ layer * self.now.vertices + vertex }
    {
        usize::from(layer) * usize::from(self.vertices) + usize::from(vertex)
    }
}
