//! Why something has no value.

/// Why an expression has no value, or a rendering or a handler no result.
#[derive(Clone, Copy, Debug, PartialEq, Eq)]
pub enum Raise {
    /// An assign that is absent.
    NoAssign,
    /// A variable that is absent.
    NoVariable,
    /// A field that the map lacks.
    NoKey,
    /// An operand or argument of a wrong kind.
    BadArgument,
    /// `and`, `or` or `not` of what is no boolean.
    BadBoolean,
    /// A whole number that leaves 64 bits.
    Range,
    /// A `case` or a `:let` that nothing matches.
    NoClause,
    /// A list, tuple, map or slot where a text is printed.
    NotPrintable,
    /// Values or rendering levels that nest too deep.
    Deep,
    /// One LiveComponent met twice in a rendering.
    Duplicate,
    /// A value sent to oneself where the inbox is full.
    InboxFull,
    /// A handler that gives no effects.
    View,
}
