ghost use Rattle.std.specs.Prelude.{◌≡◌, OnOk, IfErr, OnErr};
ghost use Rattle.vertex_set.specs.Members.{members};
ghost use Rattle.vertex_set.specs.Refusals.{FirstBroken};
ghost use Rattle.weights.specs.WeightTable.{weights_of};
ghost use Rattle.cores.specs.Cores.{Core};
ghost use Rattle.cores.specs.Refusals.{refusal, Rule, EachRule};
ghost use Rattle.cases.specs.Piles.{pile};

use cores::{PeelError, peel};
use vertex_set::VertexSet;
use views::{Relative, Restricted};
use weights::WeightTable;

// Puts the core over a pile of views into the group: a restriction over relative strengths over a
// restriction over a weight table. (Order, vector and group come as `peel` has them.)
pub(crate) fn peel_pile(
    table: &WeightTable,
    lower: VertexSet,
    upper: VertexSet,
    order: &[u8],
    vector: &[u16],
    group: &mut VertexSet,
) -> Result<(), PeelError>
    ensures kept { OnOk result
        (EachRule (pile (members lower) (members upper) (weights_of table.now))
        order.now vector.now) }
    ensures core { OnOk result
        (Core (pile (members lower) (members upper) (weights_of table.now))
        order.now vector.now (members group.new)) }
    ensures err { IfErr result
        (FirstBroken refusal (Rule (pile (members lower) (members upper) (weights_of table.now))
        order.now vector.now)) }
    ensures unchanged { OnErr result (group.new ≡ group.old) }
{
    let restricted = Restricted::new(table, lower);
    let relative = Relative::new(&restricted);
    let pile = Restricted::new(&relative, upper);
    peel(&pile, order, vector, group)
}
