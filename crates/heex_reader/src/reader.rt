//! Texts, read as templates.
ghost use Rattle.std.specs.Prelude.{◌≡◌, ◌<◌, IfOk, IfErr, length};
ghost use Rattle.std.specs.List.{AllByRecursion};
ghost use Rattle.ast_core.specs.NodeView.{nodes_view};
ghost use Rattle.heex_token.specs.Tokens.{tokens_of};
ghost use Rattle.heex_reader.specs.Fits.{Fits, Follows};
ghost use Rattle.heex_reader.specs.Gives.{Answered, Told, TokensGiven, RefusedRightly};
ghost use Rattle.heex_reader.specs.Leads.{state_view, Gives, Leads};
ghost use Rattle.heex_reader.specs.Located.{location_at};
ghost use Rattle.heex_reader.specs.Machine as machine;
ghost use Rattle.heex_reader.specs.Reading.{SpellsTemplate, placed_sign, read_tokens, signs_of, template_of};
ghost use Rattle.heex_reader.specs.Seen.{AllAt};

use crate::cursor::Cursor;
use crate::frame::Spot;
use crate::machine::{finished, step};
use crate::refusal::ReadFault;
use crate::signs::sign_of;
use crate::state::State;
use crate::{TemplateFault, TemplateKind};
use ast_core::{Nodes, Template};
use heex_token::{Token, TokenFault, Tokens, tokens};
use std::alloc::Global;
use text_core::Text;

// What a token leads to, behind what was read.
fn take_token(
    alloc: Global,
    text: &str,
    token: Token,
    cursor: &mut Cursor,
    state: State,
) -> Result<State, ReadFault>
    requires small { length text.now < 4294967295 }
    requires fits { Fits text.now token }
    requires follows { Follows text.now cursor.old }
    requires placed { AllAt (location_at text.now) state.frames }
    ensures leads { Leads (location_at text.now) result (machine.step (location_at text.now) (placed_sign text.now token) (state_view state)) }
    ensures follows { Follows text.now cursor.new }
{
    let spot = Spot {
        byte: token.start,
        location: cursor.location(text, token.start),
    };
    let sign = sign_of(alloc, text, token, cursor)?;
    step(alloc, spot, sign, state)
}

// The nodes that the tokens of a text are.
fn nodes_of_tokens(alloc: Global, text: &str, tokens: Tokens) -> Result<Nodes, ReadFault>
    requires small { length text.now < 4294967295 }
    requires fit { AllByRecursion (Fits text.now) tokens }
    ensures { Gives result (machine.outcome (location_at text.now) (signs_of text.now tokens)) }
{
    let mut cursor = Cursor::new();
    let mut state = State::new(alloc);
    'tokens: for token in tokens.into_vec() {
        state = take_token(alloc, text, token, &mut cursor, state)?;
    }
    finished(state)
}

// The tokens of a text, or what is wrong with them.
fn tokens_in(alloc: Global, text: &str) -> Result<Tokens, ReadFault>
    requires { length text.now < 4294967295 }
    ensures { TokensGiven text.now result }
{
    match tokens(alloc, text) {
        Ok(tokens) => Ok(tokens),
        Err(TokenFault::Refused { at, kind }) => Err(ReadFault::Faulty {
            at,
            kind: TemplateKind::Token(kind),
        }),
        Err(TokenFault::OutOfMemory) => Err(ReadFault::OutOfMemory),
    }
}

// The nodes that a text is, or what is wrong with it.
fn nodes_in(alloc: Global, text: &str) -> Result<Nodes, ReadFault>
    requires { length text.now < 4294967295 }
    ensures { Gives result (read_tokens text.now (tokens_of text.now)) }
{
    match tokens_in(alloc, text) {
        Ok(tokens) => nodes_of_tokens(alloc, text, tokens),
        Err(fault) => Err(fault),
    }
}

// A fault with the place of its byte.
fn told(text: &str, fault: ReadFault) -> TemplateFault
    requires { length text.now < 4294967295 }
    ensures { Told text.now fault result }
{
    match fault {
        ReadFault::Faulty { at, kind } => TemplateFault::Refused {
            place: Cursor::new().location(text, at),
            kind,
        },
        ReadFault::OutOfMemory => TemplateFault::OutOfMemory,
    }
}

/// The nodes that a text is. Otherwise `Refused`, at the first place that no template goes on with; what is wrong with
/// the text's tokens comes before all else, and a tag or a block that is left open after all else.
pub fn read_nodes(alloc: Global, text: &str) -> Result<Nodes, TemplateFault>
    requires { length text.now < 4294967295 }
    ensures answer { Answered result (template_of text.now) }
    ensures found { IfOk result (λ ns. SpellsTemplate text.now (nodes_view ns)) }
    ensures refused { IfErr result (RefusedRightly text.now) }
{
    match nodes_in(alloc, text) {
        Ok(nodes) => Ok(nodes),
        Err(fault) => Err(told(text, fault)),
    }
}

/// The template of that name that a text is, or why it is none, as `read_nodes` says.
pub fn read_template(alloc: Global, name: &str, text: &str) -> Result<Template, TemplateFault>
    requires { length text.now < 4294967295 }
    ensures name { IfOk result (λ t. t.name ≡ name.now) }
    ensures found { IfOk result (λ t. SpellsTemplate text.now (nodes_view t.nodes)) }
    ensures refused { IfErr result (RefusedRightly text.now) }
{
    let nodes = read_nodes(alloc, text)?;
    let name = Text::copy_of(alloc, name)?;
    Ok(Template { name, nodes })
}
