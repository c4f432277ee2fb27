ghost use Rattle.tables.specs.Refusals.{refusal};

use vertex_set::Refusal;

// Why no table is made of what was given.
#[derive(Clone, Copy, PartialEq, Eq, Debug)]
pub enum TableError {
    // The number of vertices or of layers is outside its limits.
    Size = 1,
    // The starts or the list of neighbours have not the right length or shape.
    Shape = 2,
    // A row does not ascend, has a neighbour that is no vertex, or names its own vertex.
    Row = 3,
    // A neighbour is not mutual.
    Mutual = 4,
}

impl Refusal for TableError {
    ghost use Rattle.std.proofs.Common.{arith};

    ghost refusal = { refusal };

    ghost apart = { λ d e same. Prim.grind arith };

    fn number(self) -> u8 {
        self as u8
    }
}
