//! Why effects are not applied.

use text_core::OutOfMemory;

/// Why effects were not all applied.
#[derive(Clone, Copy, Debug, PartialEq, Eq)]
pub enum EffectFault {
    /// One of them may not be applied.
    Raised,
    /// Memory was wanting.
    OutOfMemory,
}

impl From<OutOfMemory> for EffectFault {
    ghost use Rattle.std.specs.Prelude.{◌≡◌};
    ghost use Rattle.effects_apply.specs.declared.fault.EffectFault.TheVariants as fault;

    ghost from_gives = { λ _ e. e ≡ fault.OutOfMemory };

    fn from(_: OutOfMemory) -> EffectFault {
        EffectFault::OutOfMemory
    }
}
