//! The shape of a line: its word, and the parts behind it.
ghost use Rattle.std.specs.Prelude.{◌≡◌, IfOk, option_map};
ghost use Rattle.script_core.specs.Reading.{cut, event_parts, join_parts, parts, shape_of};

use crate::Line;
use std::alloc::Global;
use text_core::{OutOfMemory, Text};

// What stands before the first space, and behind it.
fn cut(text: &str) -> Option<(&str, &str)>
    ensures { option_map (λ p. (p.0.now, p.1.now)) result ≡ cut text.entry.now }
{
    text.split_once(' ')
}

fn event_parts(alloc: Global, rest: &str) -> Result<Option<Line>, OutOfMemory>
    ensures { IfOk result (λ x. x ≡ event_parts rest.now) }
{
    let Some((name, behind_name)) = cut(rest) else {
        return Ok(None);
    };
    let Some((kind, behind_kind)) = cut(behind_name) else {
        return Ok(None);
    };
    let Some((event, value)) = cut(behind_kind) else {
        return Ok(None);
    };
    Ok(Some(Line::Event {
        name: Text::copy_of(alloc, name)?,
        kind: Text::copy_of(alloc, kind)?,
        event: Text::copy_of(alloc, event)?,
        value: Text::copy_of(alloc, value)?,
    }))
}

fn join_parts(alloc: Global, rest: &str) -> Result<Option<Line>, OutOfMemory>
    ensures { IfOk result (λ x. x ≡ join_parts rest.now) }
{
    let Some((name, url)) = cut(rest) else {
        return Ok(None);
    };
    Ok(Some(Line::Join {
        name: Text::copy_of(alloc, name)?,
        url: Text::copy_of(alloc, url)?,
    }))
}

// The line that a word and the rest behind it make, whatever its parts are.
fn parts(alloc: Global, word: &str, rest: &str) -> Result<Option<Line>, OutOfMemory>
    ensures { IfOk result (λ x. x ≡ parts word.now rest.now) }
{
    match word {
        "browser" => Ok(Some(Line::Browser {
            name: Text::copy_of(alloc, rest)?,
        })),
        "join" => join_parts(alloc, rest),
        "event" => event_parts(alloc, rest),
        "step" => Ok(Some(Line::Step {
            name: Text::copy_of(alloc, rest)?,
        })),
        "run" => Ok(Some(Line::Run {
            name: Text::copy_of(alloc, rest)?,
        })),
        "html" => Ok(Some(Line::Html {
            name: Text::copy_of(alloc, rest)?,
        })),
        "frames" => Ok(Some(Line::Frames {
            name: Text::copy_of(alloc, rest)?,
        })),
        _ => Ok(None),
    }
}

/// The line whose shape a text has. Its parts are copied as they stand, and not judged.
#[tactic(auto, unfolding(crate::specs::Reading::shape_of))]
pub(crate) fn shape_of(alloc: Global, line: &str) -> Result<Option<Line>, OutOfMemory>
    ensures { IfOk result (λ x. x ≡ shape_of line.now) }
{
    match cut(line) {
        Some((word, rest)) => parts(alloc, word, rest),
        None => Ok(None),
    }
}
