//! One token of a pattern.
ghost use Rattle.std.specs.Prelude.{◌≡◌, ◌∷◌, ◌++◌, [], ℕ, List, IfOk, map, Some};
ghost use Rattle.ast_core.specs.Syntax as model;
ghost use Rattle.ast_core.specs.PatternView.{pattern_view, keys_of};
ghost use Rattle.ast_core.specs.NamesIn.{pattern_pair_view};
ghost use Rattle.expr_token.specs.declared.token.Token.TheVariants as tokens;
ghost use Rattle.expr_core.specs.PatternGrammar.{is_any, among, word_pattern};
ghost use Rattle.expr_core.specs.PatternMachine as machine;
ghost use Rattle.expr_core.specs.SeenPattern.{opener_view, frame_view, piled, state_of, led, has_bracket, IsPlain};

use crate::pattern_frame::{PatternFrame, PatternMode, PatternOpener, pop_frame, push_frame};
use ast_core::{BinaryOp, Pattern, PatternPair};
use expr_token::{Bracket, Token};
use std::alloc::Global;
use text_core::{Names, OutOfMemory, Seq, Text};

#[tactic(auto, using(crate::proofs::PatternForms::sees_list, crate::proofs::PatternForms::sees_tuple))]
fn finish(opener: PatternOpener, items: Seq<Pattern>) -> Pattern
    ensures { pattern_view result ≡ machine.finish (opener_view opener) (map pattern_view items) }
{
    match opener {
        PatternOpener::Listing => Pattern::List(items),
        PatternOpener::Tupling => Pattern::Tuple(items),
    }
}

#[tactic(auto, using(crate::proofs::PatternForms::items_more))]
fn with_item(items: Seq<Pattern>, item: Pattern) -> Result<Seq<Pattern>, OutOfMemory>
    ensures { IfOk result (λ ps. map pattern_view ps ≡ map pattern_view items ++ pattern_view item ∷ []) }
{
    let mut items = items;
    items.push(item)?;
    Ok(items)
}

#[tactic(auto, using(crate::proofs::PatternForms::pairs_more))]
fn with_pair(
    pairs: Seq<PatternPair>,
    key: Text,
    pattern: Pattern,
) -> Result<Seq<PatternPair>, OutOfMemory>
    ensures { IfOk result (λ ps. map pattern_pair_view ps ≡ map pattern_pair_view pairs ++ (key, pattern_view pattern) ∷ []) }
{
    let mut pairs = pairs;
    pairs.push(PatternPair { key, pattern })?;
    Ok(pairs)
}

fn has_bracket(opener: PatternOpener, bracket: Bracket) -> bool
    ensures { result ≡ has_bracket opener bracket }
{
    match (opener, bracket) {
        (PatternOpener::Listing, Bracket::Square) => true,
        (PatternOpener::Tupling, Bracket::Curly) => true,
        _ => false,
    }
}

#[tactic(auto, using(crate::proofs::PatternForms::items_end, crate::proofs::PatternForms::items_stay))]
fn ended_items(
    bracket: Bracket,
    opener: PatternOpener,
    items: Seq<Pattern>,
    pattern: Pattern,
) -> Result<Option<PatternMode>, OutOfMemory>
    ensures { IfOk result (λ mode. (ns : List (List ℕ)) (fs : machine.Frames) → machine.put_closing ns bracket (pattern_view pattern) (machine.items (opener_view opener) (map pattern_view items) ∷ fs) ≡ led mode ns fs) }
{
    if !has_bracket(opener, bracket) {
        return Ok(None);
    }
    let items = with_item(items, pattern)?;
    Ok(Some(PatternMode::Have(finish(opener, items))))
}

#[tactic(auto, using(crate::proofs::PatternForms::sees_map))]
fn ended_entries(
    bracket: Bracket,
    pairs: Seq<PatternPair>,
    key: Text,
    pattern: Pattern,
) -> Result<Option<PatternMode>, OutOfMemory>
    ensures { IfOk result (λ mode. (ns : List (List ℕ)) (fs : machine.Frames) → machine.put_closing ns bracket (pattern_view pattern) (machine.valued (map pattern_pair_view pairs) key ∷ fs) ≡ led mode ns fs) }
{
    match bracket {
        Bracket::Curly => {
            let pairs = with_pair(pairs, key, pattern)?;
            Ok(Some(PatternMode::Have(Pattern::Map(pairs))))
        }
        Bracket::Round => Ok(None),
        Bracket::Square => Ok(None),
    }
}

fn ended_by(
    bracket: Bracket,
    frame: PatternFrame,
    pattern: Pattern,
) -> Result<Option<PatternMode>, OutOfMemory>
    ensures { IfOk result (λ mode. (ns : List (List ℕ)) (fs : machine.Frames) → machine.put_closing ns bracket (pattern_view pattern) (frame_view frame ∷ fs) ≡ led mode ns fs) }
{
    match frame {
        PatternFrame::Items(opener, items) => ended_items(bracket, opener, items, pattern),
        PatternFrame::Valued(pairs, key) => ended_entries(bracket, pairs, key, pattern),
    }
}

#[tactic(auto, using(crate::proofs::PatternForms::nothing_ends))]
fn put_closing(
    bracket: Bracket,
    pattern: Pattern,
    frames: &mut Seq<PatternFrame>,
) -> Result<Option<PatternMode>, OutOfMemory>
    ensures { IfOk result (λ mode. (ns : List (List ℕ)) → machine.put_closing ns bracket (pattern_view pattern) (piled frames.old) ≡ led mode ns (piled frames.new)) }
{
    match pop_frame(frames) {
        Some(frame) => ended_by(bracket, frame, pattern),
        None => Ok(None),
    }
}

fn comma_in(
    frame: PatternFrame,
    pattern: Pattern,
    frames: &mut Seq<PatternFrame>,
) -> Result<Option<PatternMode>, OutOfMemory>
    ensures { IfOk result (λ mode. (ns : List (List ℕ)) → machine.put_comma ns (pattern_view pattern) (frame_view frame ∷ piled frames.old) ≡ led mode ns (piled frames.new)) }
{
    match frame {
        PatternFrame::Items(opener, items) => {
            let items = with_item(items, pattern)?;
            push_frame(frames, PatternFrame::Items(opener, items))?;
            Ok(Some(PatternMode::Want))
        }
        PatternFrame::Valued(pairs, key) => {
            let pairs = with_pair(pairs, key, pattern)?;
            Ok(Some(PatternMode::WantKey(pairs)))
        }
    }
}

fn put_comma(
    pattern: Pattern,
    frames: &mut Seq<PatternFrame>,
) -> Result<Option<PatternMode>, OutOfMemory>
    ensures { IfOk result (λ mode. (ns : List (List ℕ)) → machine.put_comma ns (pattern_view pattern) (piled frames.old) ≡ led mode ns (piled frames.new)) }
{
    match pop_frame(frames) {
        Some(frame) => comma_in(frame, pattern, frames),
        None => Ok(None),
    }
}

#[tactic(auto, using(crate::proofs::PatternForms::empty_ends, crate::proofs::PatternForms::empty_stays, crate::proofs::PatternForms::filled_stays))]
fn empty_items(bracket: Bracket, opener: PatternOpener, items: Seq<Pattern>) -> Option<PatternMode>
    ensures { (ns : List (List ℕ)) (fs : machine.Frames) → machine.put_empty ns bracket (machine.items (opener_view opener) (map pattern_view items) ∷ fs) ≡ led result ns fs }
{
    if !items.is_empty() {
        return None;
    }
    if !has_bracket(opener, bracket) {
        return None;
    }
    Some(PatternMode::Have(finish(opener, items)))
}

#[tactic(auto, using(crate::proofs::PatternForms::entries_stay))]
fn empty_ended(bracket: Bracket, frame: PatternFrame) -> Option<PatternMode>
    ensures { (ns : List (List ℕ)) (fs : machine.Frames) → machine.put_empty ns bracket (frame_view frame ∷ fs) ≡ led result ns fs }
{
    match frame {
        PatternFrame::Items(opener, items) => empty_items(bracket, opener, items),
        PatternFrame::Valued(_pairs, _key) => None,
    }
}

#[tactic(auto, using(crate::proofs::PatternForms::nothing_stays))]
fn put_empty(bracket: Bracket, frames: &mut Seq<PatternFrame>) -> Option<PatternMode>
    ensures { (ns : List (List ℕ)) → machine.put_empty ns bracket (piled frames.old) ≡ led result ns (piled frames.new) }
{
    match pop_frame(frames) {
        Some(frame) => empty_ended(bracket, frame),
        None => None,
    }
}

fn is_any(name: &str) -> bool
    ensures { result ≡ is_any name.now }
{
    name == "_"
}

// Whether a name is among these.
fn among(names: &[Text], name: &str) -> bool
    ensures { result ≡ among names.now name.now }
{
    'each: for other in names {
        if other.as_str() == name {
            return true;
        }
    }
    false
}

#[tactic(auto, using(crate::proofs::PatternForms::sees_any, crate::proofs::PatternForms::sees_name))]
fn word_pattern(alloc: Global, name: &Text) -> Result<Pattern, OutOfMemory>
    ensures { IfOk result (λ p. pattern_view p ≡ word_pattern name.now) }
{
    if is_any(name.as_str()) {
        return Ok(Pattern::Any);
    }
    Ok(Pattern::Name(name.copy(alloc)?))
}

// A name, which stands once.
fn put_word(
    alloc: Global,
    name: &Text,
    names: &mut Names,
) -> Result<Option<PatternMode>, OutOfMemory>
    ensures { IfOk result (λ mode. (fs : machine.Frames) → machine.put_word names.old name.now fs ≡ led mode names.new fs) }
{
    let pattern = word_pattern(alloc, name)?;
    if is_any(name.as_str()) {
        return Ok(Some(PatternMode::Have(pattern)));
    }
    if among(names.as_slice(), name.as_str()) {
        return Ok(None);
    }
    names.insert(0, name.copy(alloc)?)?;
    Ok(Some(PatternMode::Have(pattern)))
}

fn begin(
    alloc: Global,
    opener: PatternOpener,
    frames: &mut Seq<PatternFrame>,
) -> Result<Option<PatternMode>, OutOfMemory>
    ensures { IfOk result (λ mode. (ns : List (List ℕ)) → led mode ns (piled frames.new) ≡ Some (machine.want ns (machine.items (opener_view opener) [] ∷ piled frames.old))) }
{
    push_frame(frames, PatternFrame::Items(opener, Seq::new(alloc)))?;
    Ok(Some(PatternMode::Want))
}

#[tactic(auto, using(crate::proofs::PatternForms::sees_number, crate::proofs::PatternForms::sees_atom, crate::proofs::PatternForms::sees_nil, crate::proofs::PatternForms::sees_bool))]
fn on_want(
    alloc: Global,
    token: &Token,
    names: &mut Names,
    frames: &mut Seq<PatternFrame>,
) -> Result<Option<PatternMode>, OutOfMemory>
    ensures { IfOk result (λ mode. machine.on_want token.now names.old (piled frames.old) ≡ led mode names.new (piled frames.new)) }
{
    match token {
        Token::Word { at: _, name } => put_word(alloc, name, names),
        Token::Number(n) => Ok(Some(PatternMode::Have(Pattern::Number(*n)))),
        Token::Operator(BinaryOp::Minus) => Ok(Some(PatternMode::WantNumber)),
        Token::Quote(text) => Ok(Some(PatternMode::WantQuote(text.copy(alloc)?))),
        Token::Atom(name) => Ok(Some(PatternMode::Have(Pattern::Atom(name.copy(alloc)?)))),
        Token::Nil => Ok(Some(PatternMode::Have(Pattern::Nil))),
        Token::Boolean(value) => Ok(Some(PatternMode::Have(Pattern::Bool(*value)))),
        Token::OpeningSquare => begin(alloc, PatternOpener::Listing, frames),
        Token::OpeningCurly => begin(alloc, PatternOpener::Tupling, frames),
        Token::OpeningMap => Ok(Some(PatternMode::WantKey(Seq::new(alloc)))),
        Token::Closing(bracket) => Ok(put_empty(*bracket, frames)),
        _ => Ok(None),
    }
}

// A number behind a `-`.
#[tactic(auto, using(crate::proofs::PatternForms::sees_number))]
fn on_number(token: &Token) -> Option<PatternMode>
    requires { IsPlain token.now }
    ensures { (ns : List (List ℕ)) (fs : machine.Frames) → machine.step (machine.want_number ns fs) token.now ≡ led result ns fs }
{
    match token {
        Token::Number(n) => Some(PatternMode::Have(Pattern::Number(-*n))),
        _ => None,
    }
}

// The end of a text.
#[tactic(auto, using(crate::proofs::PatternForms::sees_text))]
fn on_quote(token: &Token, text: Text) -> Option<PatternMode>
    ensures { (ns : List (List ℕ)) (fs : machine.Frames) → machine.step (machine.want_quote ns text fs) token.now ≡ led result ns fs }
{
    match token {
        Token::QuoteEnd => Some(PatternMode::Have(Pattern::Text(text))),
        _ => None,
    }
}

// A map without entries ends.
#[tactic(auto, using(crate::proofs::PatternForms::sees_map))]
fn empty_map(pairs: Seq<PatternPair>) -> Option<PatternMode>
    ensures { (ns : List (List ℕ)) (fs : machine.Frames) → machine.empty_map ns (map pattern_pair_view pairs) fs ≡ led result ns fs }
{
    if pairs.is_empty() {
        Some(PatternMode::Have(Pattern::Map(pairs)))
    } else {
        None
    }
}

fn on_key(
    alloc: Global,
    token: &Token,
    pairs: Seq<PatternPair>,
) -> Result<Option<PatternMode>, OutOfMemory>
    ensures { IfOk result (λ mode. (ns : List (List ℕ)) (fs : machine.Frames) → machine.step (machine.want_key ns (map pattern_pair_view pairs) fs) token.now ≡ led mode ns fs) }
{
    match token {
        Token::Word { at: _, name } => Ok(Some(PatternMode::WantColon(pairs, name.copy(alloc)?))),
        Token::Closing(Bracket::Curly) => Ok(empty_map(pairs)),
        _ => Ok(None),
    }
}

fn on_colon(
    token: &Token,
    pairs: Seq<PatternPair>,
    key: Text,
    frames: &mut Seq<PatternFrame>,
) -> Result<Option<PatternMode>, OutOfMemory>
    ensures { IfOk result (λ mode. (ns : List (List ℕ)) → machine.step (machine.want_colon ns (map pattern_pair_view pairs) key (piled frames.old)) token.now ≡ led mode ns (piled frames.new)) }
{
    match token {
        Token::Colon => {
            push_frame(frames, PatternFrame::Valued(pairs, key))?;
            Ok(Some(PatternMode::Want))
        }
        _ => Ok(None),
    }
}

fn on_have(
    token: &Token,
    pattern: Pattern,
    frames: &mut Seq<PatternFrame>,
) -> Result<Option<PatternMode>, OutOfMemory>
    ensures { IfOk result (λ mode. (ns : List (List ℕ)) → machine.step (machine.have ns (pattern_view pattern) (piled frames.old)) token.now ≡ led mode ns (piled frames.new)) }
{
    match token {
        Token::Closing(bracket) => put_closing(*bracket, pattern, frames),
        Token::Comma => put_comma(pattern, frames),
        _ => Ok(None),
    }
}

/// One token.
pub(crate) fn step(
    alloc: Global,
    token: &Token,
    mode: PatternMode,
    names: &mut Names,
    frames: &mut Seq<PatternFrame>,
) -> Result<Option<PatternMode>, OutOfMemory>
    requires { IsPlain token.now }
    ensures { IfOk result (λ next. machine.step (state_of mode names.old (piled frames.old)) token.now ≡ led next names.new (piled frames.new)) }
{
    match mode {
        PatternMode::Want => on_want(alloc, token, names, frames),
        PatternMode::Have(pattern) => on_have(token, pattern, frames),
        PatternMode::WantNumber => Ok(on_number(token)),
        PatternMode::WantQuote(text) => Ok(on_quote(token, text)),
        PatternMode::WantKey(pairs) => on_key(alloc, token, pairs),
        PatternMode::WantColon(pairs, key) => on_colon(token, pairs, key, frames),
    }
}
