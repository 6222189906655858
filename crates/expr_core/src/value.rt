//! What was read, and how it is put together.
ghost use Rattle.std.specs.Prelude.{◌≡◌, ◌≤◌, ◌∷◌, [], IfOk, None};
ghost use Rattle.ast_core.specs.Syntax as model;
ghost use Rattle.ast_core.specs.ExprView.{expr_view, path_of};
ghost use Rattle.ast_core.specs.NamesIn.{step_view};
ghost use Rattle.expr_core.specs.Grammar.{binds, is_denial, style_holds};
ghost use Rattle.expr_core.specs.Machine as machine;
ghost use Rattle.expr_core.specs.Seen.{meant_view, value_view, style_view};
ghost use Rattle.expr_core.specs.Lines.{are_of_line};

use crate::functions::earlier;
use ast_core::{BinaryOp, Expr, Operand, PathStep, UnaryOp};
use std::alloc::Global;
use text_core::{OutOfMemory, Seq, Text};

/// An expression that was read, and the byte of its first call that names no function.
#[derive(Drop)]
pub(crate) struct Meant {
    pub expr: Expr,
    pub unknown: Option<usize>,
}

/// The name of a call, and its byte.
#[derive(Drop)]
pub(crate) struct Callee {
    pub at: usize,
    pub name: Text,
}

/// What was read, how tightly it is held together, whether it begins with a denial, and its name where it may be that
/// of a call.
#[derive(Drop)]
pub(crate) struct Value {
    pub meant: Meant,
    pub holds: u8,
    pub denies: bool,
    pub callee: Option<Callee>,
}

/// An `if` without parentheses around its parts, or with them.
#[derive(Clone, Copy)]
pub(crate) enum Style {
    Bare,
    Inside,
}

/// How tightly an operator binds.
pub(crate) fn binds(op: BinaryOp) -> u8
    ensures value { result ≡ binds op }
    ensures small { result ≤ 9 }
{
    match op {
        BinaryOp::OrElse => 1,
        BinaryOp::Or => 1,
        BinaryOp::AndAlso => 2,
        BinaryOp::And => 2,
        BinaryOp::Equal => 3,
        BinaryOp::Unequal => 3,
        BinaryOp::Less => 4,
        BinaryOp::Greater => 4,
        BinaryOp::AtMost => 4,
        BinaryOp::AtLeast => 4,
        BinaryOp::Member => 6,
        BinaryOp::Append => 7,
        BinaryOp::Concat => 7,
        BinaryOp::Plus => 8,
        BinaryOp::Minus => 8,
        BinaryOp::Times => 9,
    }
}

/// What needs nothing around it.
pub(crate) fn closed(expr: Expr, unknown: Option<usize>) -> Value
    ensures { value_view result ≡ machine.closed (expr_view expr) unknown }
{
    Value {
        meant: Meant { expr, unknown },
        holds: 11,
        denies: false,
        callee: None,
    }
}

/// A name.
#[tactic(auto, using(crate::proofs::Forms::sees_name))]
pub(crate) fn named(alloc: Global, at: usize, name: &Text) -> Result<Value, OutOfMemory>
    ensures { IfOk result (λ v. value_view v ≡ machine.named at name.now) }
{
    let expr = Expr::Name(name.copy(alloc)?);
    let name = name.copy(alloc)?;
    Ok(Value {
        meant: Meant {
            expr,
            unknown: None,
        },
        holds: 11,
        denies: false,
        callee: Some(Callee { at, name }),
    })
}

// Whether the operators of a chain are of this line of precedence.
fn are_of_line(rest: &[Operand], line: u8) -> bool
    ensures { result ≡ are_of_line rest.now line }
{
    match rest.first() {
        Some(operand) => binds(operand.op) == line,
        None => false,
    }
}

// An operator with its operands, as a chain of its own.
fn new_chain(alloc: Global, op: BinaryOp, left: Expr, right: Expr) -> Result<Expr, OutOfMemory>
    ensures { IfOk result (λ e. expr_view e ≡ model.binary op (expr_view left) (expr_view right)) }
{
    let mut rest = Seq::new(alloc);
    rest.push(Operand { op, value: right })?;
    let first = Box::new(alloc, left)?;
    Ok(Expr::LeftChain { first, rest })
}

// An operator with its operands: a chain of its line of precedence goes on.
fn chained(alloc: Global, op: BinaryOp, left: Expr, right: Expr) -> Result<Expr, OutOfMemory>
    ensures { IfOk result (λ e. expr_view e ≡ model.binary op (expr_view left) (expr_view right)) }
{
    match left {
        Expr::LeftChain { first, rest } => {
            if !are_of_line(rest.as_slice(), binds(op)) {
                return new_chain(alloc, op, Expr::LeftChain { first, rest }, right);
            }
            let mut rest = rest;
            rest.push(Operand { op, value: right })?;
            Ok(Expr::LeftChain { first, rest })
        }
        other => new_chain(alloc, op, other, right),
    }
}

/// An operator with its operands.
pub(crate) fn both(
    alloc: Global,
    op: BinaryOp,
    left: Value,
    right: Value,
) -> Result<Value, OutOfMemory>
    ensures { IfOk result (λ v. value_view v ≡ machine.both op (value_view left) (value_view right)) }
{
    let unknown = earlier(left.meant.unknown, right.meant.unknown);
    let expr = chained(alloc, op, left.meant.expr, right.meant.expr)?;
    Ok(Value {
        meant: Meant { expr, unknown },
        holds: binds(op),
        denies: left.denies,
        callee: None,
    })
}

// An operator before its operand.
fn is_denial(op: UnaryOp) -> bool
    ensures { result ≡ is_denial op }
{
    match op {
        UnaryOp::Minus => false,
        UnaryOp::Bang => true,
        UnaryOp::Not => true,
    }
}

/// An operator before its operand.
#[tactic(auto, using(crate::proofs::Forms::sees_unary))]
pub(crate) fn alone(alloc: Global, op: UnaryOp, value: Value) -> Result<Value, OutOfMemory>
    ensures { IfOk result (λ v. value_view v ≡ machine.alone op (value_view value)) }
{
    let unknown = value.meant.unknown;
    let value = Box::new(alloc, value.meant.expr)?;
    Ok(Value {
        meant: Meant {
            expr: Expr::Unary { op, value },
            unknown,
        },
        holds: 10,
        denies: is_denial(op),
        callee: None,
    })
}

// A step into a value: a path goes on.
fn stepped(alloc: Global, value: Expr, step: PathStep) -> Result<Expr, OutOfMemory>
    ensures { IfOk result (λ e. expr_view e ≡ path_of (expr_view value) (step_view step ∷ [])) }
{
    match value {
        Expr::Path { value, steps } => {
            let mut steps = steps;
            steps.push(step)?;
            Ok(Expr::Path { value, steps })
        }
        other => {
            let mut steps = Seq::new(alloc);
            steps.push(step)?;
            let value = Box::new(alloc, other)?;
            Ok(Expr::Path { value, steps })
        }
    }
}

/// A field of a value.
#[tactic(auto, using(crate::proofs::Forms::sees_field_step))]
pub(crate) fn field_of(alloc: Global, value: Value, name: &Text) -> Result<Value, OutOfMemory>
    ensures { IfOk result (λ v. value_view v ≡ machine.field_of (value_view value) name.now) }
{
    let unknown = value.meant.unknown;
    let step = PathStep::Field(name.copy(alloc)?);
    let expr = stepped(alloc, value.meant.expr, step)?;
    Ok(Value {
        meant: Meant { expr, unknown },
        holds: 11,
        denies: value.denies,
        callee: None,
    })
}

/// What stands at an index of a value.
#[tactic(auto, using(crate::proofs::Forms::sees_index_step))]
pub(crate) fn index_of(alloc: Global, value: Value, index: Value) -> Result<Value, OutOfMemory>
    ensures { IfOk result (λ v. value_view v ≡ machine.index_of (value_view value) (value_view index)) }
{
    let unknown = earlier(value.meant.unknown, index.meant.unknown);
    let step = PathStep::Index(index.meant.expr);
    let expr = stepped(alloc, value.meant.expr, step)?;
    Ok(Value {
        meant: Meant { expr, unknown },
        holds: 11,
        denies: value.denies,
        callee: None,
    })
}

// How tightly an `if` is held together.
fn style_holds(style: Style) -> u8
    ensures { result ≡ style_holds (style_view style) }
{
    match style {
        Style::Bare => 0,
        Style::Inside => 11,
    }
}

/// An `if` without `else`.
#[tactic(auto, using(crate::proofs::Forms::sees_if_only))]
pub(crate) fn chosen(
    alloc: Global,
    style: Style,
    test: Meant,
    yes: Meant,
) -> Result<Value, OutOfMemory>
    ensures { IfOk result (λ v. value_view v ≡ machine.chosen (style_view style) (meant_view test) (meant_view yes)) }
{
    let unknown = earlier(test.unknown, yes.unknown);
    let expr = Expr::If {
        test: Box::new(alloc, test.expr)?,
        yes: Box::new(alloc, yes.expr)?,
        no: None,
    };
    Ok(Value {
        meant: Meant { expr, unknown },
        holds: style_holds(style),
        denies: false,
        callee: None,
    })
}

/// An `if` with `else`.
#[tactic(auto, using(crate::proofs::Forms::sees_if))]
pub(crate) fn chosen_else(
    alloc: Global,
    style: Style,
    test: Meant,
    yes: Meant,
    no: Meant,
) -> Result<Value, OutOfMemory>
    ensures { IfOk result (λ v. value_view v ≡ machine.chosen_else (style_view style) (meant_view test) (meant_view yes) (meant_view no)) }
{
    let unknown = earlier(test.unknown, earlier(yes.unknown, no.unknown));
    let expr = Expr::If {
        test: Box::new(alloc, test.expr)?,
        yes: Box::new(alloc, yes.expr)?,
        no: Some(Box::new(alloc, no.expr)?),
    };
    Ok(Value {
        meant: Meant { expr, unknown },
        holds: style_holds(style),
        denies: false,
        callee: None,
    })
}
