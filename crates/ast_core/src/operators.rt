//! The operators and the functions of expressions.

/// An operator before its operand.
#[derive(Clone, Copy, Debug, PartialEq, Eq)]
pub enum UnaryOp {
    /// `-`
    Minus,
    /// `!`
    Bang,
    /// `not`
    Not,
}

/// An operator between two operands.
#[derive(Clone, Copy, Debug, PartialEq, Eq)]
pub enum BinaryOp {
    /// `||`
    OrElse,
    /// `or`
    Or,
    /// `&&`
    AndAlso,
    /// `and`
    And,
    /// `==`
    Equal,
    /// `!=`
    Unequal,
    /// `<`
    Less,
    /// `>`
    Greater,
    /// `<=`
    AtMost,
    /// `>=`
    AtLeast,
    /// `in`
    Member,
    /// `++`
    Append,
    /// `<>`
    Concat,
    /// `+`
    Plus,
    /// `-`
    Minus,
    /// `*`
    Times,
}

/// A function that an expression may call.
#[derive(Clone, Copy, Debug, PartialEq, Eq)]
pub enum Function {
    /// `length(list)`
    Length,
    /// `is_nil(value)`
    IsNil,
    /// `to_string(value)`
    ToString,
    /// `div(a, b)`
    Div,
    /// `rem(a, b)`
    Rem,
    /// `abs(a)`
    Abs,
    /// `max(a, b)`
    Max,
    /// `min(a, b)`
    Min,
    /// `Enum.count(list_or_map)`
    Count,
    /// `Enum.empty?(list_or_map)`
    IsEmpty,
    /// `Enum.join(list)` and `Enum.join(list, text)`
    Join,
    /// `Enum.reverse(list)`
    Reverse,
    /// `Map.get(map, key)` and `Map.get(map, key, default)`
    Get,
    /// `Map.has_key?(map, key)`
    HasKey,
}
