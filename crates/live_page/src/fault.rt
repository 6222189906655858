//! Why a page was not rendered.
use diff_render::RenderFault;
use effects_apply::EffectFault;
use text_core::OutOfMemory;
use view_api::ViewFault;

/// Why a page was not rendered.
#[derive(Clone, Copy, Debug, PartialEq, Eq)]
pub enum PageFault {
    /// A handler, one of its effects or the rendering raised.
    Raised,
    /// Memory was wanting.
    OutOfMemory,
}

impl From<OutOfMemory> for PageFault {
    ghost use Rattle.std.specs.Prelude.{◌≡◌};
    ghost use Rattle.live_page.specs.declared.fault.PageFault.TheVariants as fault;

    ghost from_gives = { λ _ e. e ≡ fault.OutOfMemory };

    fn from(_: OutOfMemory) -> PageFault {
        PageFault::OutOfMemory
    }
}

impl From<ViewFault> for PageFault {
    ghost use Rattle.std.specs.Prelude.{◌≡◌};
    ghost use Rattle.live_page.specs.Fault.{of_view};

    ghost from_gives = { λ f e. e ≡ of_view f };

    fn from(fault: ViewFault) -> PageFault {
        match fault {
            ViewFault::Raised => PageFault::Raised,
            ViewFault::OutOfMemory => PageFault::OutOfMemory,
        }
    }
}

impl From<EffectFault> for PageFault {
    ghost use Rattle.std.specs.Prelude.{◌≡◌};
    ghost use Rattle.live_page.specs.Fault.{of_effect};

    ghost from_gives = { λ f e. e ≡ of_effect f };

    fn from(fault: EffectFault) -> PageFault {
        match fault {
            EffectFault::Raised => PageFault::Raised,
            EffectFault::OutOfMemory => PageFault::OutOfMemory,
        }
    }
}

impl From<RenderFault> for PageFault {
    ghost use Rattle.std.specs.Prelude.{◌≡◌};
    ghost use Rattle.live_page.specs.Fault.{of_render};

    ghost from_gives = { λ f e. e ≡ of_render f };

    fn from(fault: RenderFault) -> PageFault {
        match fault {
            RenderFault::Raised => PageFault::Raised,
            RenderFault::OutOfMemory => PageFault::OutOfMemory,
        }
    }
}
