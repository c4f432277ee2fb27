ghost use Rattle.weights.specs.Refusals.{refusal};

use vertex_set::Refusal;

// Why no table is made of the weights that were given.
#[derive(Clone, Copy, PartialEq, Eq, Debug)]
pub enum WeightError {
    // The number of vertices or of layers is outside its limits.
    Size = 1,
    // There is not one weight for each layer and two vertices.
    Length = 2,
    // A vertex has a weight in its own row.
    Own = 5,
}

impl Refusal for WeightError {
    ghost use Rattle.std.proofs.Common.{arith};

    ghost refusal = { refusal };

    ghost apart = { λ d e same. Prim.grind arith };

    fn number(self) -> u8 {
        self as u8
    }
}
