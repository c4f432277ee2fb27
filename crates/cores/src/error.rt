ghost use Rattle.cores.specs.Refusals.{refusal};

use vertex_set::Refusal;

// Why there is no core to peel.
#[derive(Clone, Copy, PartialEq, Eq, Debug)]
pub enum PeelError {
    // The order is empty, repeats a layer, or has one that the network lacks.
    Order = 6,
    // The vector has not one demand for each layer of the order.
    Vector = 8,
}

impl Refusal for PeelError {
    ghost use Rattle.std.proofs.Common.{arith};

    ghost refusal = { refusal };

    ghost apart = { λ d e same. Prim.grind arith };

    fn number(self) -> u8 {
        self as u8
    }
}
