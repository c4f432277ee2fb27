ghost use Rattle.std.specs.Prelude.{◌≡◌, IfOk, IfErr, OnOk};
ghost use Rattle.vertex_set.specs.Refusals.{FirstBroken};
ghost use Rattle.tables.specs.Rows.{rows, MutualRows};
ghost use Rattle.tables.specs.Right.{right_rows};
ghost use Rattle.tables.specs.Refusals.{refusal, Rule, EachRule};

use crate::error::TableError;
use crate::right_rows::RightRows;
use crate::rows::Rows;
use network::Network;
use vertex_set::VertexSet;

// The neighbours of each vertex in each layer.
#[derive(Drop)]
pub struct NeighbourTable {
    rows: RightRows,
    ghost is_mutual: { MutualRows (right_rows rows) },
}

impl NeighbourTable {
    ghost use Rattle.tables.specs.Neighbours.{rows_of};

    // The table of the given rows, if they keep the rules; else the first rule that they break.
    // (The four arguments come apart, as callers have them; `Rows` holds them together.)
    pub fn new(
        vertices: u16,
        layers: u8,
        starts: Vec<u32>,
        neighbours: Vec<u16>,
    ) -> Result<NeighbourTable, TableError>
        ensures ok { IfOk result
            (λ table. rows_of table ≡ rows vertices layers starts.items neighbours.items) }
        ensures kept { OnOk result
            (EachRule (rows vertices layers starts.items neighbours.items)) }
        ensures err { IfErr result
            (FirstBroken refusal (Rule (rows vertices layers starts.items neighbours.items))) }
    {
        let rows = Rows::new(vertices, layers, starts, neighbours)?;
        let Some(rows) = RightRows::new(rows) else {
            return Err(TableError::Row);
        };
        if !rows.are_mutual() {
            return Err(TableError::Mutual);
        }
        Ok(NeighbourTable { rows })
    }
}

impl Network for NeighbourTable {
    ghost use Rattle.tables.specs.Neighbours.{rows_of, neighbour_network};
    ghost use Rattle.tables.specs.Duties.{neighbour_duties};

    const HIGHEST: u16 = 1023;

    ghost stated = { 1023 };

    ghost means = { λ t. neighbour_network (rows_of t) };

    ghost duties = { λ t. neighbour_duties (rows_of t) t.rows.rows.size.within t.rows.right };

    fn highest_strength() -> u16 {
        Self::HIGHEST
    }

    fn vertices(&self) -> u16 {
        self.rows.rows.size.vertices
    }

    fn layers(&self) -> u8 {
        self.rows.rows.size.layers
    }

    fn strength(&self, layer: u8, group: &VertexSet, vertex: u16) -> u16 {
        let rows = &self.rows.rows;
        if layer >= rows.size.layers || vertex >= rows.size.vertices {
            return 0;
        }
        let row = rows.row(layer, vertex);
        row.iter().map(|u| u16::from(group.contains(*u))).sum()
    }
}
