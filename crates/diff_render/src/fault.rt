//! Why nothing was rendered.
use text_core::OutOfMemory;
use value_core::PrintFault;

/// Why nothing was rendered.
#[derive(Clone, Copy, Debug, PartialEq, Eq)]
pub enum RenderFault {
    /// The rendering raises.
    Raised,
    /// Memory was wanting.
    OutOfMemory,
}

impl From<OutOfMemory> for RenderFault {
    ghost use Rattle.std.specs.Prelude.{◌≡◌};
    ghost use Rattle.diff_render.specs.declared.fault.RenderFault.TheVariants as fault;

    ghost from_gives = { λ _ e. e ≡ fault.OutOfMemory };

    fn from(_: OutOfMemory) -> RenderFault {
        RenderFault::OutOfMemory
    }
}
