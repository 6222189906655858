//! Why nothing is shown.
use text_core::OutOfMemory;
use value_core::Raise;

/// Why nothing is shown.
#[derive(Clone, Copy, Debug, PartialEq, Eq)]
pub enum AttributeFault {
    /// The value raises where it is printed.
    Raised(Raise),
    /// Memory was wanting.
    OutOfMemory,
}

impl From<OutOfMemory> for AttributeFault {
    ghost use Rattle.std.specs.Prelude.{◌≡◌};
    ghost use Rattle.attribute_text.specs.declared.fault.AttributeFault.TheVariants as fault;

    ghost from_gives = { λ _ e. e ≡ fault.OutOfMemory };

    fn from(_: OutOfMemory) -> AttributeFault {
        AttributeFault::OutOfMemory
    }
}
