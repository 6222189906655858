//! What stands where an operand is wanted.
ghost use Rattle.std.specs.Prelude.{◌≡◌, ◌∷◌, [], IfOk, Some, None};
ghost use Rattle.ast_core.specs.ExprView.{expr_view};
ghost use Rattle.expr_token.specs.declared.token.Token.TheVariants as tokens;
ghost use Rattle.expr_core.specs.Machine as machine;
ghost use Rattle.expr_core.specs.Seen.{frame_view, opener_view, seen, led};

use crate::call::with_plain;
use crate::close::put_empty;
use crate::frame::{Frame, Mode, Opener};
use crate::pile::Pile;
use crate::reduce::need;
use crate::value::{Callee, closed, named};
use ast_core::{BinaryOp, Expr, UnaryOp};
use expr_token::Token;
use std::alloc::Global;
use text_core::{OutOfMemory, Seq, Text};

/// Something begins, and an operand is wanted.
pub(crate) fn begin(frame: Frame, frames: &mut Pile) -> Result<Option<Mode>, OutOfMemory>
    ensures { IfOk result (λ mode. led mode (seen frames.new) ≡ Some (machine.want (frame_view frame ∷ seen frames.old))) }
{
    frames.push(frame)?;
    Ok(Some(Mode::Want))
}

// An `if`, with a parenthesis of its own where it has to be held together.
fn begin_if(frames: &mut Pile) -> Result<Option<Mode>, OutOfMemory>
    ensures { IfOk result (λ mode. machine.on_want tokens.If (seen frames.old) ≡ led mode (seen frames.new)) }
{
    if need(frames) > 0 {
        return Ok(Some(Mode::WantIf));
    }
    frames.push(Frame::Test)?;
    Ok(Some(Mode::Want))
}

fn have(expr: Expr) -> Option<Mode>
    ensures { (fs : machine.Frames) → led result fs ≡ Some (machine.have (machine.closed (expr_view expr) None) fs) }
{
    Some(Mode::Have(closed(expr, None)))
}

// The name of what can only be a call.
fn begin_call(alloc: Global, at: usize, name: &Text) -> Result<Option<Mode>, OutOfMemory>
    ensures { IfOk result (λ mode. (fs : machine.Frames) → machine.on_want (tokens.Function at name.now) fs ≡ led mode fs) }
{
    let name = name.copy(alloc)?;
    Ok(Some(Mode::WantArguments(Opener::Calling(Callee { at, name }))))
}

fn begin_text(alloc: Global, text: &Text) -> Result<Option<Mode>, OutOfMemory>
    ensures { IfOk result (λ mode. (fs : machine.Frames) → machine.on_want (tokens.Quote text.now) fs ≡ led mode fs) }
{
    let parts = with_plain(alloc, Seq::new(alloc), text)?;
    Ok(Some(Mode::WantPart(parts, None)))
}

/// A list begins.
pub(crate) fn begin_list(
    alloc: Global,
    opener: Opener,
    frames: &mut Pile,
) -> Result<Option<Mode>, OutOfMemory>
    ensures { IfOk result (λ mode. led mode (seen frames.new) ≡ Some (machine.want (machine.items (opener_view opener) [] None ∷ seen frames.old))) }
{
    begin(Frame::Items(opener, Seq::new(alloc), None), frames)
}

/// A token where an operand is wanted.
#[tactic(auto, using(crate::proofs::Forms::sees_number, crate::proofs::Forms::sees_atom, crate::proofs::Forms::sees_nil, crate::proofs::Forms::sees_bool))]
pub(crate) fn on_want(
    alloc: Global,
    token: &Token,
    frames: &mut Pile,
) -> Result<Option<Mode>, OutOfMemory>
    ensures { IfOk result (λ mode. machine.on_want token.now (seen frames.old) ≡ led mode (seen frames.new)) }
{
    match token {
        Token::Number(n) => Ok(have(Expr::Number(*n))),
        Token::Atom(name) => Ok(have(Expr::Atom(name.copy(alloc)?))),
        Token::Nil => Ok(have(Expr::Nil)),
        Token::Boolean(value) => Ok(have(Expr::Bool(*value))),
        Token::Word { at, name } => Ok(Some(Mode::Have(named(alloc, *at, name)?))),
        Token::Function { at, name } => begin_call(alloc, *at, name),
        Token::At => Ok(Some(Mode::WantAssign)),
        Token::Quote(text) => begin_text(alloc, text),
        Token::OpeningMap => Ok(Some(Mode::WantKey(Seq::new(alloc), None))),
        Token::Operator(BinaryOp::Minus) => begin(Frame::Ahead(UnaryOp::Minus), frames),
        Token::Bang => begin(Frame::Ahead(UnaryOp::Bang), frames),
        Token::NotWord => begin(Frame::Ahead(UnaryOp::Not), frames),
        Token::OpeningRound => begin(Frame::Paren, frames),
        Token::OpeningSquare => begin_list(alloc, Opener::Listing, frames),
        Token::OpeningCurly => begin_list(alloc, Opener::Tupling, frames),
        Token::If => begin_if(frames),
        Token::Closing(bracket) => put_empty(alloc, *bracket, frames),
        _ => Ok(None),
    }
}
