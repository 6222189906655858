//! Which parts a line may have.
ghost use Rattle.std.specs.Prelude.{◌≡◌, ◌==◌, IfOk, not, codes, is_some};
ghost use Rattle.std.specs.List.{list_all};
ghost use Rattle.serde_json.specs.View.{view};
ghost use Rattle.value_core.specs.Json.{value_of_json};
ghost use Rattle.script_core.specs.Script.{is_letter_or_digit, is_name, is_word, has_value, is_event, is_fit};

use crate::Line;
use serde_json::Value as Json;
use std::alloc::Global;
use text_core::{OutOfMemory, Text};
use value_core::{JsonFault, from_json};

fn is_letter_or_digit(byte: u8) -> bool
    ensures { result ≡ is_letter_or_digit byte }
{
    byte.is_ascii_alphanumeric()
}

fn all_letters_or_digits(bytes: &[u8]) -> bool
    ensures { result ≡ list_all is_letter_or_digit bytes.now }
{
    bytes.iter().all(|byte| is_letter_or_digit(*byte))
}

// Whether the bytes are one to eight ASCII letters or digits.
fn is_name(bytes: &[u8]) -> bool
    ensures { result ≡ is_name bytes.now }
{
    if bytes.is_empty() {
        return false;
    }
    if bytes.len() > 8 {
        return false;
    }
    all_letters_or_digits(bytes)
}

fn has_no_space(bytes: &[u8]) -> bool
    ensures { result ≡ list_all (λ b. not (b == 32)) bytes.now }
{
    bytes.iter().all(|byte| *byte != b' ')
}

// Whether the bytes are one or more that are no space.
fn is_word(bytes: &[u8]) -> bool
    ensures { result ≡ is_word bytes.now }
{
    if bytes.is_empty() {
        return false;
    }
    has_no_space(bytes)
}

// Whether a JSON value stands for a value.
fn is_taken(alloc: Global, json: &Json) -> Result<bool, OutOfMemory>
    ensures { IfOk result (λ b. b ≡ is_some (value_of_json (view json.now))) }
{
    match from_json(alloc, json) {
        Ok(_) => Ok(true),
        Err(JsonFault::NoValue) => Ok(false),
        Err(JsonFault::OutOfMemory) => Err(OutOfMemory),
    }
}

// Whether the text is JSON that stands for a value.
#[tactic(auto, unfolding(crate::specs::Script::has_value))]
fn has_value(alloc: Global, text: &str) -> Result<bool, OutOfMemory>
    ensures { IfOk result (λ b. b ≡ has_value text.now) }
{
    match Json::from_str(alloc, text) {
        Ok(json) => is_taken(alloc, &json),
        Err(fault) => {
            if fault.is_memory() {
                Err(OutOfMemory)
            } else {
                Ok(false)
            }
        }
    }
}

// Whether they are an event's type, name and value.
fn is_event(alloc: Global, kind: &str, event: &str, value: &str) -> Result<bool, OutOfMemory>
    ensures { IfOk result (λ b. b ≡ is_event kind.now event.now value.now) }
{
    if !is_word(kind.as_bytes()) {
        return Ok(false);
    }
    if kind == "form" {
        return Ok(false);
    }
    if !is_word(event.as_bytes()) {
        return Ok(false);
    }
    has_value(alloc, value)
}

fn is_named(name: &Text) -> bool
    ensures { result ≡ is_name name.now }
{
    is_name(name.as_str().as_bytes())
}

/// Whether a line's parts are as they must be, wherever it stands.
pub(crate) fn is_fit(alloc: Global, line: &Line) -> Result<bool, OutOfMemory>
    ensures { IfOk result (λ b. b ≡ is_fit line.now) }
{
    match line {
        Line::Join { name, url } => {
            if !is_named(name) {
                return Ok(false);
            }
            Ok(url.as_str() == "/")
        }
        Line::Event {
            name,
            kind,
            event,
            value,
        } => {
            if !is_named(name) {
                return Ok(false);
            }
            is_event(alloc, kind.as_str(), event.as_str(), value.as_str())
        }
        Line::Browser { name }
        | Line::Step { name }
        | Line::Run { name }
        | Line::Html { name }
        | Line::Frames { name } => Ok(is_named(name)),
    }
}
