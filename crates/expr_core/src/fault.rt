//! Why a text is no expression.

/// Why a text was not read.
#[derive(Debug, Drop)]
pub enum ExprFault {
    /// The text is refused at this byte.
    Refused { at: usize, kind: ExprKind },
    /// There was not memory enough.
    OutOfMemory,
}

/// What is wrong with a text.
#[derive(Clone, Copy, Debug, PartialEq, Eq)]
pub enum ExprKind {
    /// No expression goes on like this, or the text ends too early.
    Stray,
    /// A bracket or a quote is not closed.
    Unclosed,
    /// A number is above 9223372036854775807.
    BadNumber,
    /// A call names no function that takes so many arguments.
    UnknownFunction,
    /// It stands more than 64 levels deep.
    TooDeep,
}
