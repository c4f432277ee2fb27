ghost use Rattle.std.specs.Prelude.{◌≡◌, ℕ};
ghost use Rattle.vertex_set.specs.Refusals.{refusal};

// The reasons for which something is refused, each with its number.
pub trait Refusal {
    // The number of each.
    ghost refusal: { Self → ℕ };

    // The refusal's number.
    fn number(self) -> u8
        ensures { result ≡ refusal self };

    // No two reasons have the same number.
    ghost apart: { (d e : Self) → refusal d ≡ refusal e → d ≡ e };
}

// Why a set refuses a vertex.
#[derive(Clone, Copy, PartialEq, Eq, Debug)]
pub enum SetError {
    // The vertex is not one of 0 to 1,023.
    OutOfRange = 20,
}

impl Refusal for SetError {
    ghost use Rattle.std.proofs.Common.{arith};

    ghost refusal = { refusal };

    ghost apart = { λ d e same. Prim.grind arith };

    fn number(self) -> u8 {
        self as u8
    }
}
