//! The tokens of templates.
ghost use Rattle.std.specs.Prelude.{◌≡◌, ◌+◌, ◌<◌, ◌^◌, ◌++◌, length, [], ◌∷◌, List, Ok, Err, OnOk, IfOk, IfErr};
ghost use Rattle.heex_token.specs.declared.token.Token.{Token};
ghost use Rattle.heex_token.specs.Tokens.{refused_in, at_end, token_before, plain_behind, result_map, tokens_of};
ghost use Rattle.heex_token.specs.Answers.{Refused, Answered, Spans, Apart, Slices, Cuts, InnerCuts};
ghost use Rattle.heex_token.specs.Lexing.{is_text, added, Counted, Going};
ghost use Rattle.heex_token.specs.declared.token.TokenForm.TheVariants.{Text};
ghost use Rattle.heex_token.specs.declared.token.TokenFault.TheVariants as fault;

use crate::piece::{Piece, first_piece};
use crate::region::{Inside, Region, region_behind};
use crate::token::{Token, TokenFault, TokenForm, TokenKind, Tokens};
use std::alloc::Global;
use text_core::{OutOfMemory, Seq};

impl From<OutOfMemory> for TokenFault {
    ghost use Rattle.std.specs.Prelude.{◌≡◌};
    ghost use Rattle.heex_token.specs.declared.token.TokenFault.TheVariants.{OutOfMemory};

    ghost from_gives = { λ _ e. e ≡ OutOfMemory };

    fn from(_e: OutOfMemory) -> TokenFault {
        TokenFault::OutOfMemory
    }
}

/// How far a text is read.
#[derive(Debug, Drop)]
pub(crate) struct Lexer {
    /// The tokens so far.
    pub list: Tokens,
    /// What surrounds the next byte.
    pub region: Region,
    /// The next byte.
    pub at: usize,
}

fn is_text(form: &TokenForm) -> bool
    ensures { result ≡ is_text form.now }
{
    match form {
        TokenForm::Text => true,
        _ => false,
    }
}

// One text in place of two.
fn joined(first: Token, second: Token) -> Token
    ensures { result ≡ record { start = first.start; end = second.end; form = Text } }
{
    Token {
        start: first.start,
        end: second.end,
        form: TokenForm::Text,
    }
}

// Adds two tokens, or one text in place of two.
#[tactic(auto, using(crate::proofs::Joining::merged, crate::proofs::Joining::kept_before, crate::proofs::Joining::kept_behind))]
fn put(list: &mut Tokens, last: Token, token: Token) -> Result<(), OutOfMemory>
    ensures { OnOk result (list.new ≡ list.old ++ token_before last (token ∷ [])) }
{
    if !is_text(&last.form) {
        list.push(last)?;
        return list.push(token);
    }
    if !is_text(&token.form) {
        list.push(last)?;
        return list.push(token);
    }
    list.push(joined(last, token))
}

// Adds a token, to the last one where both are texts.
#[tactic(auto, using(crate::proofs::Joining::added_end))]
fn add(list: &mut Tokens, token: Token) -> Result<(), OutOfMemory>
    ensures { OnOk result (list.new ≡ added list.old token) }
{
    match list.pop() {
        Some(last) => put(list, last, token),
        None => list.push(token),
    }
}

// Goes past a piece that ends at this byte.
fn pass(lexer: &mut Lexer, form: TokenForm, end: usize, inside: Inside) -> Result<(), OutOfMemory>
    requires counted { Counted lexer.old.region.plain lexer.old.at }
    requires forth { lexer.old.at < end }
    ensures list { OnOk result (lexer.new.list ≡ added lexer.old.list (record { start = lexer.old.at; end = end; form = form })) }
    ensures region { OnOk result (lexer.new.region ≡ record { inside = inside; plain = plain_behind form lexer.old.region.plain }) }
    ensures at { OnOk result (lexer.new.at ≡ end) }
{
    let region = region_behind(&form, lexer.region, inside);
    add(
        &mut lexer.list,
        Token {
            start: lexer.at,
            end,
            form,
        },
    )?;
    lexer.region = region;
    lexer.at = end;
    Ok(())
}

fn refused(at: usize, kind: TokenKind) -> TokenFault
    ensures { result ≡ fault.Refused at kind }
{
    TokenFault::Refused { at, kind }
}

// A comment or a doctype that does not end is what is wrong inside of it.
fn refused_in(inside: Inside, at: usize, kind: TokenKind) -> TokenFault
    ensures { result ≡ fault.Refused (refused_in inside at kind).place (refused_in inside at kind).kind }
{
    match inside {
        Inside::Comment(from) => refused(from, TokenKind::UnclosedComment),
        Inside::Doctype(from) => refused(from, TokenKind::UnclosedComment),
        Inside::Markup => refused(at, kind),
        Inside::Raw(_) => refused(at, kind),
    }
}

// Reads on by a piece.
fn step(alloc: Global, text: &str, lexer: &mut Lexer) -> Result<(), TokenFault>
    requires within { lexer.old.at < length text.now }
    requires going { Going text.now lexer.old }
    ensures forth { OnOk result (lexer.old.at < lexer.new.at) }
    ensures going { OnOk result (Going text.now lexer.new) }
    ensures refused { IfErr result (λ f. Refused f (tokens_of text.now)) }
{
    match first_piece(alloc, text, lexer.at, lexer.region)? {
        Piece::Piece { form, size, inside } => {
            let end = lexer.at + size;
            pass(lexer, form, end, inside)?;
            Ok(())
        }
        Piece::Faulty { at, kind } => Err(refused_in(lexer.region.inside, at, kind)),
    }
}

// The tokens so far, where the text may end.
fn ended(list: Tokens, inside: Inside) -> Result<Tokens, TokenFault>
    ensures { Answered result (result_map (λ (ts : List Token). list) (at_end inside)) }
{
    match inside {
        Inside::Comment(from) => Err(refused(from, TokenKind::UnclosedComment)),
        Inside::Doctype(from) => Err(refused(from, TokenKind::UnclosedComment)),
        Inside::Markup => Ok(list),
        Inside::Raw(_) => Ok(list),
    }
}

/// The tokens of a template, which span its bytes in order and without a gap; texts that stand side by side are one.
///
/// A text is refused where a tag, an interpolation, a block tag or a comment does not end, at the byte where it
/// begins; at a `<` that begins nothing; and inside of a tag at a byte that begins no attribute. A fault inside of a
/// comment or a doctype is that this does not end.
pub fn tokens(alloc: Global, text: &str) -> Result<Tokens, TokenFault>
    ensures answer { Answered result (tokens_of text.now) }
    ensures spans { IfOk result (λ ts. Spans 0 (length text.now) ts) }
    ensures apart { IfOk result (λ ts. Apart ts) }
    ensures slices { IfOk result (Slices text.now) }
    ensures cuts { IfOk result (Cuts text.now) }
    ensures inner { IfOk result (InnerCuts text.now) }
{
    let mut lexer = Lexer {
        list: Seq::new(alloc),
        region: Region {
            inside: Inside::Markup,
            plain: None,
        },
        at: 0,
    };
    'more: while lexer.at < text.len() {
        step(alloc, text, &mut lexer)?;
    }
    let Lexer {
        list,
        region,
        at: _at,
    } = lexer;
    ended(list, region.inside)
}
