ghost use Rattle.std.specs.Prelude.{◌≡◌, ◌<◌, ◌↔◌, IsTrue, IsOk, IfOk, IfErr};
ghost use Rattle.network.specs.Sizes.{WithinLimits};
ghost use Rattle.vertex_set.specs.Refusals.{FirstBroken};
ghost use Rattle.weights.specs.Weights.{weights as given, Row, Full, NoOwnIn, NoOwn};
ghost use Rattle.weights.specs.Refusals.{refusal, Rule};

use crate::error::WeightError;
use network::Size;

// The weight of each vertex in the row of each vertex, in each layer. The row of layer l and
// vertex v is number l * vertices + v; the rows stand one behind the other.
#[derive(Drop)]
pub(crate) struct Rows {
    pub(crate) size: Size<128>,
    // One list, kept as it is given: another form would need memory, which `new` does not ask for.
    weights: Vec<u16>,
    ghost full: { Full (given size.vertices size.layers weights.items) },
}

impl Rows {
    ghost use Rattle.weights.specs.Rows.{weights_of_rows};

    // The rows of the given weights, if size and number keep the rules; else the first rule broken.
    // (The arguments come apart: here they are put together.)
    pub(crate) fn new(vertices: u16, layers: u8, weights: Vec<u16>) -> Result<Rows, WeightError>
        ensures made { IsOk result ↔ (WithinLimits 128 vertices layers
            × Full (given vertices layers weights.items)) }
        ensures ok { IfOk result
            (λ rows. weights_of_rows rows ≡ given vertices layers weights.items) }
        ensures err { IfErr result
            (FirstBroken refusal (Rule (given vertices layers weights.items))) }
    {
        let size = Size::new(vertices, layers).ok_or(WeightError::Size)?;
        if weights.len() != size.rows() * usize::from(vertices) {
            return Err(WeightError::Length);
        }
        Ok(Rows { size, weights })
    }

    // The row of the vertex in the layer. (That the two are within is asked of callers: it ties
    // them to this table, so no type of theirs can hold it; and `None` for others would leave each
    // test to say what a missing row means.)
    pub(crate) fn row(&self, layer: u8, vertex: u16) -> &[u16]
        requires layer { layer < self.now.size.layers }
        requires vertex { vertex < self.now.size.vertices }
        ensures { Row (weights_of_rows self.now) layer vertex result.now }
    {
        let n = usize::from(self.size.vertices);
        let start = self.size.row(layer, vertex) * n;
        &self.weights[start..start + n]
    }

    // Whether no vertex has a weight in its own row.
    pub(crate) fn has_no_own(&self) -> bool
        ensures { IsTrue result ↔ NoOwn (weights_of_rows self.now) }
    {
        (0..self.size.layers).all(|layer| self.has_no_own_in(layer))
    }

    // Whether no vertex has a weight in its own row, in the layer. (Within, as for `row`. The walk
    // of `tables`, `all_places`, is not shared: it would be public, and it asks that its test may
    // be called, where no public function asks for anything. With one `all` inside the other the
    // proof does not close: what the outer closure says cannot be named.)
    fn has_no_own_in(&self, layer: u8) -> bool
        requires { layer < self.now.size.layers }
        ensures { IsTrue result ↔ NoOwnIn (weights_of_rows self.now) layer }
    {
        (0..self.size.vertices).all(|v| self.row(layer, v)[usize::from(v)] == 0)
    }
}
