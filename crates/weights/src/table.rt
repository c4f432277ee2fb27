ghost use Rattle.std.specs.Prelude.{◌≡◌, IfOk, IfErr, OnOk};
ghost use Rattle.vertex_set.specs.Refusals.{FirstBroken};
ghost use Rattle.weights.specs.Weights.{weights as given, NoOwn};
ghost use Rattle.weights.specs.Refusals.{refusal, Rule, EachRule};
ghost use Rattle.weights.specs.Rows.{weights_of_rows};

use crate::error::WeightError;
use crate::rows::Rows;
use network::Network;
use vertex_set::VertexSet;

// A network that is given by rows of weights; no vertex has a weight in its own row.
#[derive(Drop)]
pub struct WeightTable {
    rows: Rows,
    ghost no_own: { NoOwn (weights_of_rows rows) },
}

impl WeightTable {
    ghost use Rattle.weights.specs.WeightTable.{weights_of};

    // The table of the given weights, if they keep the rules; else the first rule that they break.
    // (The three arguments come apart, as callers have them; `Rows` holds them together.)
    pub fn new(vertices: u16, layers: u8, weights: Vec<u16>) -> Result<WeightTable, WeightError>
        ensures ok { IfOk result (λ table. weights_of table ≡ given vertices layers weights.items) }
        ensures kept { OnOk result (EachRule (given vertices layers weights.items)) }
        ensures err { IfErr result
            (FirstBroken refusal (Rule (given vertices layers weights.items))) }
    {
        let rows = Rows::new(vertices, layers, weights)?;
        if !rows.has_no_own() {
            return Err(WeightError::Own);
        }
        Ok(WeightTable { rows })
    }
}

impl Network for WeightTable {
    ghost use Rattle.weights.specs.Networks.{weight_network};
    ghost use Rattle.weights.specs.WeightTable.{weights_of};
    ghost use Rattle.weights.specs.Duties.{weight_duties};

    const HIGHEST: u16 = 65535;

    ghost stated = { 65535 };

    ghost means = { λ t. weight_network (weights_of t) };

    ghost duties = { λ t. weight_duties (weights_of t) t.rows.size.within };

    fn highest_strength() -> u16 {
        Self::HIGHEST
    }

    fn vertices(&self) -> u16 {
        self.rows.size.vertices
    }

    fn layers(&self) -> u8 {
        self.rows.size.layers
    }

    fn strength(&self, layer: u8, group: &VertexSet, vertex: u16) -> u16 {
        if layer >= self.rows.size.layers || vertex >= self.rows.size.vertices {
            return 0;
        }
        let row = self.rows.row(layer, vertex);
        row.iter().enumerate().fold(0, |sum: u16, (u, weight)| {
            if group.contains(u as u16) {
                sum.saturating_add(*weight)
            } else {
                sum
            }
        })
    }
}
