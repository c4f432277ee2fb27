// Rows of neighbours that are right, and whether they are mutual.

ghost use Rattle.std.specs.Prelude.{◌≡◌, ◌<◌, ◌↔◌, IsTrue, IsSome, IfSome};
ghost use Rattle.vertex_set.specs.Lists.{elements};
ghost use Rattle.tables.specs.Rows.{row, RowsRight, MutualRow, MutualRows};
ghost use Rattle.tables.specs.Stored.{stored_rows};

use crate::each::all_places;
use crate::rows::Rows;

// Rows that are right: each ascends, has only vertices, and leaves out the vertex itself.
#[derive(Drop)]
pub(crate) struct RightRows {
    pub(crate) rows: Rows,
    ghost right: { RowsRight (stored_rows rows) },
}

impl RightRows {
    ghost use Rattle.tables.specs.Right.{right_rows};

    // The given rows, if each is right.
    pub(crate) fn new(rows: Rows) -> Option<RightRows>
        ensures right { IsSome result ↔ RowsRight (stored_rows rows) }
        ensures same { IfSome result (λ made. right_rows made ≡ stored_rows rows) }
    {
        if rows.are_right() {
            Some(RightRows { rows })
        } else {
            None
        }
    }

    // Whether each row is mutual.
    pub(crate) fn are_mutual(&self) -> bool
        ensures { IsTrue result ↔ MutualRows (right_rows self.now) }
    {
        all_places(
            self.rows.size,
            |layer, vertex| self.is_mutual_row(layer, vertex),
        )
    }

    // Whether each neighbour of a vertex in a layer has the vertex for its neighbour there.
    // (Within, as for `Rows::row`.)
    fn is_mutual_row(&self, layer: u8, vertex: u16) -> bool
        requires layer { layer < self.now.rows.size.layers }
        requires vertex { vertex < self.now.rows.size.vertices }
        ensures { IsTrue result ↔ MutualRow (right_rows self.now) layer vertex }
    {
        let row = self.rows.row(layer, vertex);
        row.iter().all(|u| self.has_neighbour(layer, *u, vertex))
    }

    // Whether the vertex has the neighbour in the layer. (Within, as for `Rows::row`.)
    fn has_neighbour(&self, layer: u8, vertex: u16, neighbour: u16) -> bool
        requires layer { layer < self.now.rows.size.layers }
        requires vertex { vertex < self.now.rows.size.vertices }
        ensures { result ≡ elements (row (right_rows self.now) layer vertex) neighbour }
    {
        self.rows
            .row(layer, vertex)
            .binary_search(&neighbour)
            .is_ok()
    }
}
