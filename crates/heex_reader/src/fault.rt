//! Why a text is no template.

use ast_core::Location;
use expr_core::ExprKind;
use heex_token::TokenKind;
use text_core::OutOfMemory;

/// Why a text was not read.
#[derive(Debug, Drop)]
pub enum TemplateFault {
    /// The text is refused at this place.
    Refused { place: Location, kind: TemplateKind },
    /// There was not memory enough.
    OutOfMemory,
}

/// What is wrong with a text.
#[derive(Clone, Copy, Debug, PartialEq, Eq)]
pub enum TemplateKind {
    /// It has no tokens.
    Token(TokenKind),
    /// A tag or a block is not closed; at its `<`.
    Unclosed,
    /// An end tag does not match the innermost tag or block that is open; at its `<`.
    WrongClose,
    /// A void element has an end tag; at its `<`.
    VoidClosed,
    /// A block tag is none, or stands out of place, or something stands before the first clause of a `case`.
    BadBlock,
    /// An attribute that begins with a colon is none, stands on a tag where it has no meaning, has no braces or stands
    /// there twice; at its name.
    BadSpecial,
    /// An expression or a pattern is none.
    BadExpr(ExprKind),
    /// More than 128 tags and blocks are open; at the tag or block.
    TooDeep,
}

impl From<OutOfMemory> for TemplateFault {
    ghost use Rattle.std.specs.Prelude.{◌≡◌};
    ghost use Rattle.heex_reader.specs.declared.fault.TemplateFault.TheVariants.{OutOfMemory};

    ghost from_gives = { λ _ e. e ≡ OutOfMemory };

    fn from(_e: OutOfMemory) -> TemplateFault {
        TemplateFault::OutOfMemory
    }
}
