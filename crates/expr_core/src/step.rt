//! One token of an expression.
ghost use Rattle.std.specs.Prelude.{◌≡◌, [], IfOk, map};
ghost use Rattle.ast_core.specs.NamesIn.{part_view, pair_view};
ghost use Rattle.expr_core.specs.Machine as machine;
ghost use Rattle.expr_core.specs.Seen.{value_view, meant_view, opener_view, style_view, seen, state_of, led};

use crate::behind::on_have;
use crate::call::map_from;
use crate::frame::{Frame, Mode, Opener};
use crate::pile::Pile;
use crate::value::{Callee, Meant, Style, Value, closed, field_of};
use crate::want::{begin, begin_list, on_want};
use ast_core::{Expr, Pair, TextPart};
use expr_token::{Bracket, Token};
use std::alloc::Global;
use text_core::{OutOfMemory, Seq, Text};

#[tactic(auto, using(crate::proofs::Forms::sees_assign))]
fn on_assign(alloc: Global, token: &Token) -> Result<Option<Mode>, OutOfMemory>
    ensures { IfOk result (λ mode. (fs : machine.Frames) → machine.step (machine.want_assign fs) token.now ≡ led mode fs) }
{
    match token {
        Token::Word { at: _, name } => {
            let expr = Expr::Assign(name.copy(alloc)?);
            Ok(Some(Mode::Have(closed(expr, None))))
        }
        _ => Ok(None),
    }
}

fn on_field(alloc: Global, token: &Token, value: Value) -> Result<Option<Mode>, OutOfMemory>
    ensures { IfOk result (λ mode. (fs : machine.Frames) → machine.step (machine.want_field (value_view value) fs) token.now ≡ led mode fs) }
{
    match token {
        Token::Word { at: _, name } => Ok(Some(Mode::Have(field_of(alloc, value, name)?))),
        _ => Ok(None),
    }
}

// The name of a call behind `|>`.
fn on_call(alloc: Global, token: &Token, value: Value) -> Result<Option<Mode>, OutOfMemory>
    ensures { IfOk result (λ mode. (fs : machine.Frames) → machine.step (machine.want_call (value_view value) fs) token.now ≡ led mode fs) }
{
    match token {
        Token::Word { at, name } => {
            let name = name.copy(alloc)?;
            let callee = Callee { at: *at, name };
            Ok(Some(Mode::WantArguments(Opener::Piping(value, callee))))
        }
        Token::Function { at, name } => {
            let name = name.copy(alloc)?;
            let callee = Callee { at: *at, name };
            Ok(Some(Mode::WantArguments(Opener::Piping(value, callee))))
        }
        _ => Ok(None),
    }
}

fn on_arguments(
    alloc: Global,
    token: &Token,
    opener: Opener,
    frames: &mut Pile,
) -> Result<Option<Mode>, OutOfMemory>
    ensures { IfOk result (λ mode. machine.step (machine.want_arguments (opener_view opener) (seen frames.old)) token.now ≡ led mode (seen frames.new)) }
{
    match token {
        Token::CallOpening => begin_list(alloc, opener, frames),
        _ => Ok(None),
    }
}

fn on_if(token: &Token, frames: &mut Pile) -> Result<Option<Mode>, OutOfMemory>
    ensures { IfOk result (λ mode. machine.step (machine.want_if (seen frames.old)) token.now ≡ led mode (seen frames.new)) }
{
    match token {
        Token::OpeningRound => begin(Frame::InnerTest, frames),
        _ => Ok(None),
    }
}

fn on_do(
    token: &Token,
    style: Style,
    test: Meant,
    frames: &mut Pile,
) -> Result<Option<Mode>, OutOfMemory>
    ensures { IfOk result (λ mode. machine.step (machine.want_do (style_view style) (meant_view test) (seen frames.old)) token.now ≡ led mode (seen frames.new)) }
{
    match token {
        Token::DoColon => begin(Frame::Yes(style, test), frames),
        _ => Ok(None),
    }
}

fn on_else(
    token: &Token,
    style: Style,
    test: Meant,
    yes: Meant,
    frames: &mut Pile,
) -> Result<Option<Mode>, OutOfMemory>
    ensures { IfOk result (λ mode. machine.step (machine.want_else (style_view style) (meant_view test) (meant_view yes) (seen frames.old)) token.now ≡ led mode (seen frames.new)) }
{
    match token {
        Token::ElseColon => begin(Frame::No(style, test, yes), frames),
        _ => Ok(None),
    }
}

// A part of a text, or its end.
#[tactic(auto, using(crate::proofs::Forms::sees_text))]
fn on_part(
    token: &Token,
    parts: Seq<TextPart>,
    unknown: Option<usize>,
    frames: &mut Pile,
) -> Result<Option<Mode>, OutOfMemory>
    ensures { IfOk result (λ mode. machine.step (machine.want_part (map part_view parts) unknown (seen frames.old)) token.now ≡ led mode (seen frames.new)) }
{
    match token {
        Token::PartOpening => begin(Frame::Putting(parts, unknown), frames),
        Token::QuoteEnd => Ok(Some(Mode::Have(closed(Expr::Text(parts), unknown)))),
        _ => Ok(None),
    }
}

// A map without entries ends.
fn empty_map(pairs: Seq<Pair>, unknown: Option<usize>) -> Option<Mode>
    ensures { (fs : machine.Frames) → machine.empty_map (map pair_view pairs) unknown fs ≡ led result fs }
{
    if pairs.is_empty() {
        Some(Mode::Have(map_from(pairs, unknown)))
    } else {
        None
    }
}

fn on_key(
    alloc: Global,
    token: &Token,
    pairs: Seq<Pair>,
    unknown: Option<usize>,
) -> Result<Option<Mode>, OutOfMemory>
    ensures { IfOk result (λ mode. (fs : machine.Frames) → machine.on_key token.now (map pair_view pairs) unknown fs ≡ led mode fs) }
{
    match token {
        Token::Word { at: _, name } => {
            Ok(Some(Mode::WantColon(pairs, unknown, name.copy(alloc)?)))
        }
        Token::Quote(text) => Ok(Some(Mode::WantQuote(pairs, unknown, text.copy(alloc)?))),
        Token::Closing(Bracket::Curly) => Ok(empty_map(pairs, unknown)),
        _ => Ok(None),
    }
}

fn on_colon(
    token: &Token,
    pairs: Seq<Pair>,
    unknown: Option<usize>,
    key: Text,
    frames: &mut Pile,
) -> Result<Option<Mode>, OutOfMemory>
    ensures { IfOk result (λ mode. machine.step (machine.want_colon (map pair_view pairs) unknown key (seen frames.old)) token.now ≡ led mode (seen frames.new)) }
{
    match token {
        Token::Colon => begin(Frame::Valued(pairs, unknown, key), frames),
        _ => Ok(None),
    }
}

fn on_quote(token: &Token, pairs: Seq<Pair>, unknown: Option<usize>, key: Text) -> Option<Mode>
    ensures { (fs : machine.Frames) → machine.step (machine.want_quote (map pair_view pairs) unknown key fs) token.now ≡ led result fs }
{
    match token {
        Token::QuoteEnd => Some(Mode::WantArrow(pairs, unknown, key)),
        _ => None,
    }
}

fn on_arrow(
    token: &Token,
    pairs: Seq<Pair>,
    unknown: Option<usize>,
    key: Text,
    frames: &mut Pile,
) -> Result<Option<Mode>, OutOfMemory>
    ensures { IfOk result (λ mode. machine.step (machine.want_arrow (map pair_view pairs) unknown key (seen frames.old)) token.now ≡ led mode (seen frames.new)) }
{
    match token {
        Token::Arrow => begin(Frame::Valued(pairs, unknown, key), frames),
        _ => Ok(None),
    }
}

/// One token.
pub(crate) fn step(
    alloc: Global,
    token: &Token,
    mode: Mode,
    frames: &mut Pile,
) -> Result<Option<Mode>, OutOfMemory>
    ensures { IfOk result (λ next. machine.step (state_of mode (seen frames.old)) token.now ≡ led next (seen frames.new)) }
{
    match mode {
        Mode::Want => on_want(alloc, token, frames),
        Mode::Have(value) => on_have(alloc, token, value, frames),
        Mode::WantAssign => on_assign(alloc, token),
        Mode::WantField(value) => on_field(alloc, token, value),
        Mode::WantCall(value) => on_call(alloc, token, value),
        Mode::WantArguments(opener) => on_arguments(alloc, token, opener, frames),
        Mode::WantIf => on_if(token, frames),
        Mode::WantDo(style, test) => on_do(token, style, test, frames),
        Mode::WantElse(style, test, yes) => on_else(token, style, test, yes, frames),
        Mode::WantPart(parts, unknown) => on_part(token, parts, unknown, frames),
        Mode::WantKey(pairs, unknown) => on_key(alloc, token, pairs, unknown),
        Mode::WantColon(pairs, unknown, key) => on_colon(token, pairs, unknown, key, frames),
        Mode::WantQuote(pairs, unknown, key) => Ok(on_quote(token, pairs, unknown, key)),
        Mode::WantArrow(pairs, unknown, key) => on_arrow(token, pairs, unknown, key, frames),
    }
}
