//! Expressions.

use crate::{BinaryOp, Function, UnaryOp};
use text_core::{Seq, Text};

/// An expression. Parentheses leave no trace. What goes on without nesting stands in a list, however long: operators of
/// one line of precedence, the fields and indexes of a value, and pipes.
#[cycle(expr)]
#[derive(Debug, Drop)]
pub enum Expr {
    /// A whole number.
    Number(i64),
    /// A text in pieces.
    Text(Seq<TextPart>),
    /// An atom, without its colon.
    Atom(Text),
    /// `nil`
    Nil,
    /// `true` and `false`
    Bool(bool),
    /// An assign, without its `@`.
    Assign(Text),
    /// A variable.
    Name(Text),
    /// `[a, b]`
    List(Seq<Expr>),
    /// `{a, b}`
    Tuple(Seq<Expr>),
    /// `%{k: a}`
    Map(Seq<Pair>),
    /// A value with its fields and indexes, from the left: `a.k[b]`.
    Path {
        value: Box<Expr>,
        steps: Seq<PathStep>,
    },
    /// An operator before its operand.
    Unary {
        op: UnaryOp,
        value: Box<Expr>,
    },
    /// Operators of one line of precedence that group to the left: `a - b + c`.
    LeftChain {
        first: Box<Expr>,
        rest: Seq<Operand>,
    },
    /// Operators of one line of precedence that group to the right: `a ++ b <> c`.
    RightChain {
        first: Box<Expr>,
        rest: Seq<Operand>,
    },
    /// `if a, do: b, else: c`
    If {
        test: Box<Expr>,
        yes: Box<Expr>,
        no: Option<Box<Expr>>,
    },
    /// A call with its arguments.
    Call {
        function: Function,
        arguments: Seq<Expr>,
    },
    /// Calls that each take what stands before their `|>` as the first argument: `a |> f(b) |> g()`.
    Pipes {
        first: Box<Expr>,
        calls: Seq<PipeCall>,
    },
}

/// A piece of a text.
#[cycle(expr)]
#[derive(Debug, Drop)]
pub enum TextPart {
    /// Characters as they stand.
    Plain(Text),
    /// `#{a}`
    Put(Expr),
}

/// An entry of a map.
#[cycle(expr)]
#[derive(Debug, Drop)]
pub struct Pair {
    pub key: Text,
    pub value: Expr,
}

/// A step into a value.
#[cycle(expr)]
#[derive(Debug, Drop)]
pub enum PathStep {
    /// `.k`
    Field(Text),
    /// `[a]`
    Index(Expr),
}

/// An operator with the operand behind it.
#[cycle(expr)]
#[derive(Debug, Drop)]
pub struct Operand {
    pub op: BinaryOp,
    pub value: Expr,
}

/// A call behind `|>`, with its arguments from the second on.
#[cycle(expr)]
#[derive(Debug, Drop)]
pub struct PipeCall {
    pub function: Function,
    pub arguments: Seq<Expr>,
}

/// A list of expressions.
pub type Exprs = Seq<Expr>;

/// The pieces of a text: none is empty, and no two plain ones stand side by side.
pub type Parts = Seq<TextPart>;

/// The entries of a map, as they are written.
pub type Pairs = Seq<Pair>;
