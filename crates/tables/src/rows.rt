// Rows of neighbours, and the rules that they keep.

ghost use Rattle.std.specs.Prelude.{◌≡◌, ◌<◌, ◌↔◌, not, ◌&&◌, nat_lt, nat_eq, IsTrue, IsOk, IfOk, IfErr};
ghost use Rattle.network.specs.Sizes.{WithinLimits};
ghost use Rattle.vertex_set.specs.Refusals.{FirstBroken};
ghost use Rattle.tables.specs.Rows.{rows, row, Shaped, RowRight, RowsRight};
ghost use Rattle.tables.specs.Refusals.{refusal, Rule};

use crate::each::all_places;
use crate::error::TableError;
use network::Size;

// Rows of neighbours, one behind the other: one for each vertex in each layer. The row of layer l
// and vertex v is number l * vertices + v; it runs from its start up to the next start.
#[derive(Drop)]
pub(crate) struct Rows {
    pub(crate) size: Size<1024>,
    // The two lists are kept as they are given: another form would need memory, which `new` does
    // not ask for.
    starts: Vec<u32>,
    neighbours: Vec<u16>,
    ghost shaped: { Shaped (rows size.vertices size.layers starts.items neighbours.items) },
}

impl Rows {
    ghost use Rattle.tables.specs.Stored.{stored_rows};

    // The given rows, if their size and shape are right; else the first of the two that is not.
    // (The arguments come apart: here they are put together.)
    pub(crate) fn new(
        vertices: u16,
        layers: u8,
        starts: Vec<u32>,
        neighbours: Vec<u16>,
    ) -> Result<Rows, TableError>
        ensures made { IsOk result ↔ (WithinLimits 1024 vertices layers
            × Shaped (rows vertices layers starts.items neighbours.items)) }
        ensures ok { IfOk result
            (λ made. stored_rows made ≡ rows vertices layers starts.items neighbours.items) }
        ensures err { IfErr result
            (FirstBroken refusal (Rule (rows vertices layers starts.items neighbours.items))) }
    {
        let size = Size::new(vertices, layers).ok_or(TableError::Size)?;
        if !is_shaped(size, &starts, &neighbours) {
            return Err(TableError::Shape);
        }
        Ok(Rows {
            size,
            starts,
            neighbours,
        })
    }

    // The row of the vertex in the layer. (That the two are within is asked of callers: it ties
    // them to this table, so no type of theirs can hold it; and `None` for others would leave each
    // test to say what a missing row means.)
    pub(crate) fn row(&self, layer: u8, vertex: u16) -> &[u16]
        requires layer { layer < self.now.size.layers }
        requires vertex { vertex < self.now.size.vertices }
        ensures { result.now ≡ row (stored_rows self.now) layer vertex }
    {
        let number = self.size.row(layer, vertex);
        &self.neighbours[self.starts[number] as usize..self.starts[number + 1] as usize]
    }

    // Whether each row is right.
    pub(crate) fn are_right(&self) -> bool
        ensures { IsTrue result ↔ RowsRight (stored_rows self.now) }
    {
        all_places(self.size, |layer, vertex| {
            is_right_row(self.row(layer, vertex), self.size.vertices, vertex)
        })
    }
}

// Whether the starts and the neighbours have the right lengths and shape.
fn is_shaped(size: Size<1024>, starts: &[u32], neighbours: &[u16]) -> bool
    ensures { IsTrue result ↔ Shaped (rows size.vertices size.layers starts.now neighbours.now) }
{
    let rows = size.rows();
    starts.len() == rows + 1
        && neighbours.len() <= 65536
        && starts[0] == 0
        && starts[rows] as usize == neighbours.len()
        && starts.is_sorted_by(|start, next| start <= next)
}

// Whether the row of a vertex ascends, has only vertices, and leaves out the vertex itself. It looks
// no further than the first neighbour that is wrong.
fn is_right_row(row: &[u16], vertices: u16, vertex: u16) -> bool
    ensures { IsTrue result ↔ RowRight vertices vertex row.now }
{
    row.first().is_none_or(|u| is_other(*u, vertices, vertex))
        && row.is_sorted_by(|u, next| u < next && is_other(*next, vertices, vertex))
}

// Whether u is one of so many vertices, and not the vertex itself.
fn is_other(u: u16, vertices: u16, vertex: u16) -> bool
    ensures { result ≡ (nat_lt u vertices && not (nat_eq u vertex)) }
{
    u < vertices && u != vertex
}
