//! Why an evaluation gives no value.
ghost use Rattle.std.specs.Prelude.{◌≡◌};

use text_core::OutOfMemory;
use value_core::Raise;

/// Why an expression gives no value.
#[derive(Clone, Copy, Debug, PartialEq, Eq)]
pub enum EvalFault {
    /// It raises.
    Raised(Raise),
    /// Memory was wanting.
    OutOfMemory,
}

impl From<OutOfMemory> for EvalFault {
    ghost use Rattle.std.specs.Prelude.{◌≡◌};
    ghost use Rattle.expr_eval.specs.declared.fault.EvalFault.TheVariants as fault;

    ghost from_gives = { λ _ e. e ≡ fault.OutOfMemory };

    fn from(_: OutOfMemory) -> EvalFault {
        EvalFault::OutOfMemory
    }
}
