//! Texts inside HTML.
ghost use Rattle.std.specs.Prelude.{◌≡◌, ◌++◌, IfOk, OnOk, OnErr, option_map};
ghost use Rattle.text_core.specs.Escape.{entity_of, escape_text};

use crate::{OutOfMemory, Text};
use std::alloc::Global;

fn entity_of(byte: u8) -> Option<&'static str>
    ensures { option_map (λ t. t.now) result ≡ entity_of byte }
{
    match byte {
        b'&' => Some("&amp;"),
        b'<' => Some("&lt;"),
        b'>' => Some("&gt;"),
        b'"' => Some("&quot;"),
        b'\'' => Some("&#39;"),
        _ => None,
    }
}

// The text, escaped: each stretch between two of the five characters is copied as it stands.
fn escaped(alloc: Global, text: &str) -> Result<Text, OutOfMemory>
    ensures { IfOk result (λ t. t ≡ escape_text text.now) }
{
    let bytes = text.as_bytes();
    let mut escaped = Text::new(alloc);
    let mut start = 0;
    for i in 0..bytes.len() {
        let Some(entity) = entity_of(bytes[i]) else {
            continue;
        };
        escaped.push_str(&text[start..i])?;
        escaped.push_str(entity)?;
        start = i + 1;
    }
    escaped.push_str(&text[start..])?;
    Ok(escaped)
}

/// Adds the text to `out`, with `&`, `<`, `>`, `"` and `'` written as `&amp;`, `&lt;`, `&gt;`,
/// `&quot;` and `&#39;`, so that it reads the same in the content of an element and in a quoted
/// attribute (HTML Living Standard, 13.3). After an error `out` is as before.
pub fn escape_html(alloc: Global, text: &str, out: &mut Text) -> Result<(), OutOfMemory>
    ensures ok { OnOk result (out.new ≡ out.old ++ escape_text text.now) }
    ensures err { OnErr result (out.new ≡ out.old) }
{
    let escaped = escaped(alloc, text)?;
    out.push_str(escaped.as_str())
}
