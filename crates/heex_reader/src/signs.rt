//! What the tokens of a file say.
ghost use Rattle.std.specs.Prelude.{◌≡◌, ◌<◌, length, IfOk};
ghost use Rattle.heex_token.specs.Answers.{Between};
ghost use Rattle.heex_reader.specs.Fits.{Fits, Follows};
ghost use Rattle.heex_reader.specs.Reading.{between, sign_of};
ghost use Rattle.heex_reader.specs.SeenSigns.{sign_view};
ghost use Rattle.heex_reader.specs.Signs.{words};

use crate::cursor::Cursor;
use crate::head::{block_tag_sign, put_sign};
use crate::sign::Sign;
use crate::tag::start_sign;
use crate::value::value_sign;
use heex_token::{Token, TokenForm};
use std::alloc::Global;
use text_core::{OutOfMemory, Text};

// Text as it stands between these bytes.
fn words(alloc: Global, text: &str, start: usize, end: usize) -> Result<Sign, OutOfMemory>
    requires { Between text.now start end }
    ensures { IfOk result (λ s. sign_view s ≡ words (between start end text.now)) }
{
    Ok(Sign::Words(Text::copy_of(alloc, &text[start..end])?))
}

/// What a token of this file says, where its bytes stand.
pub(crate) fn sign_of(
    alloc: Global,
    text: &str,
    token: Token,
    cursor: &mut Cursor,
) -> Result<Sign, OutOfMemory>
    requires small { length text.now < 4294967295 }
    requires fits { Fits text.now token }
    requires follows { Follows text.now cursor.old }
    ensures sign { IfOk result (λ s. sign_view s ≡ sign_of text.now token) }
    ensures follows { Follows text.now cursor.new }
{
    let Token { start, end, form } = token;
    match form {
        TokenForm::Dropped => Ok(Sign::Dropped),
        TokenForm::Text => words(alloc, text, start, end),
        TokenForm::Put => put_sign(alloc, start, start + 3, &text[start + 3..end - 2]),
        TokenForm::Block => block_tag_sign(alloc, start, start + 2, &text[start + 2..end - 2]),
        TokenForm::Curly => value_sign(alloc, start + 1, &text[start + 1..end - 1]),
        TokenForm::StartTag {
            name,
            attributes,
            end,
        } => start_sign(alloc, text, name, attributes, end, cursor),
        TokenForm::EndTag { name } => Ok(Sign::Closes(name)),
    }
}
