//! Elements without end tags.
ghost use Rattle.std.specs.Prelude.{◌≡◌};
ghost use Rattle.ast_core.specs.Places.{is_void};

/// Whether elements of this name have no content and no end tag.
pub fn is_void(name: &str) -> bool
    ensures { result ≡ is_void name.now }
{
    matches!(
        name,
        "area"
            | "base"
            | "br"
            | "col"
            | "embed"
            | "hr"
            | "img"
            | "input"
            | "link"
            | "meta"
            | "param"
            | "source"
            | "track"
            | "wbr"
    )
}
