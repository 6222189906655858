//! The reader of steps.
ghost use Rattle.std.specs.Prelude.{◌≡◌, IfOk, option_map, map};
ghost use Rattle.serde_json.specs.Find.{as_str};
ghost use Rattle.serde_json.specs.View.{view, items_view};
ghost use Rattle.bundle_files.specs.StepsView.{step_view, steps_view};
ghost use Rattle.bundle_files.specs.StepReading.{is_text, texts_in, assign_from, when_from, last_two, step_from, step_in, steps_at, steps_in, lists_in};

use crate::{Step, Steps};
use serde_json::Value;
use std::alloc::Global;
use template_reader::read_formula;
use text_core::{OutOfMemory, Seq, Text};

/// Whether a text is there, and is this one.
pub(crate) fn is_text(found: Option<&str>, text: &str) -> bool
    ensures { result ≡ is_text text.now (option_map (λ x. x.now) found.entry) }
{
    match found {
        Some(x) => x == text,
        None => false,
    }
}

// `["assign",NAME,E]`, without the word.
fn assign_from(alloc: Global, name: &Value, text: &Value) -> Result<Option<Step>, OutOfMemory>
    ensures { IfOk result (λ s. option_map step_view s ≡ assign_from (as_str (view name.now)) (as_str (view text.now))) }
{
    let Some(name) = name.as_str() else {
        return Ok(None);
    };
    let Some(text) = text.as_str() else {
        return Ok(None);
    };
    let Some(value) = read_formula(alloc, text)? else {
        return Ok(None);
    };
    let name = Text::copy_of(alloc, name)?;
    Ok(Some(Step::Assign { name, value }))
}

// `["when",E,[STEP,..],[STEP,..]]`, without the word.
fn when_from(
    alloc: Global,
    text: &Value,
    yes: Option<Steps>,
    no: Option<Steps>,
) -> Result<Option<Step>, OutOfMemory>
    ensures { IfOk result (λ s. option_map step_view s ≡ when_from (as_str (view text.now)) (option_map steps_view yes) (option_map steps_view no)) }
{
    let Some(text) = text.as_str() else {
        return Ok(None);
    };
    let Some(yes) = yes else {
        return Ok(None);
    };
    let Some(no) = no else {
        return Ok(None);
    };
    match read_formula(alloc, text)? {
        Some(test) => Ok(Some(Step::When { test, yes, no })),
        None => Ok(None),
    }
}

// The last two of four lists of steps.
fn last_two(lists: Seq<Option<Steps>>) -> Option<(Option<Steps>, Option<Steps>)>
    ensures { result ≡ last_two lists }
{
    if lists.len() != 4 {
        return None;
    }
    let mut lists = lists;
    let Some(no) = lists.pop() else {
        return None;
    };
    let Some(yes) = lists.pop() else {
        return None;
    };
    Some((yes, no))
}

// A step by its items, and by the steps that each item is.
fn step_from(
    alloc: Global,
    items: &[Value],
    lists: Seq<Option<Steps>>,
) -> Result<Option<Step>, OutOfMemory>
    ensures { IfOk result (λ s. option_map step_view s ≡ step_from (texts_in (items_view items.now)) (map (option_map steps_view) lists)) }
{
    match items {
        [word, name, text] => {
            if !is_text(word.as_str(), "assign") {
                return Ok(None);
            }
            assign_from(alloc, name, text)
        }
        [word, text, _yes, _no] => {
            if !is_text(word.as_str(), "when") {
                return Ok(None);
            }
            let Some((yes, no)) = last_two(lists) else {
                return Ok(None);
            };
            when_from(alloc, text, yes, no)
        }
        _ => Ok(None),
    }
}

#[cycle(steps)]
fn step_in(alloc: Global, value: &Value) -> Result<Option<Step>, OutOfMemory>
    ensures { IfOk result (λ s. option_map step_view s ≡ step_in (view value.now)) }
{
    match value {
        Value::Array(items) => {
            let lists = lists_in(alloc, items)?;
            step_from(alloc, items.as_slice(), lists)
        }
        _ => Ok(None),
    }
}

// The steps of a list.
#[cycle(steps)]
pub(crate) fn steps_at(alloc: Global, value: &Value) -> Result<Option<Steps>, OutOfMemory>
    ensures { IfOk result (λ s. option_map steps_view s ≡ steps_at (view value.now)) }
{
    match value {
        Value::Array(items) => steps_in(alloc, items),
        _ => Ok(None),
    }
}

#[cycle(steps)]
fn steps_in(alloc: Global, items: &Vec<Value>) -> Result<Option<Steps>, OutOfMemory>
    ensures { IfOk result (λ s. option_map steps_view s ≡ steps_in (items_view items.now.items)) }
{
    let mut steps = Seq::new(alloc);
    'items: for item in items {
        let Some(step) = step_in(alloc, item)? else {
            return Ok(None);
        };
        steps.push(step)?;
    }
    Ok(Some(steps))
}

// The steps that each item is, where it is a list of them.
#[cycle(steps)]
fn lists_in(alloc: Global, items: &Vec<Value>) -> Result<Seq<Option<Steps>>, OutOfMemory>
    ensures { IfOk result (λ ls. map (option_map steps_view) ls ≡ lists_in (items_view items.now.items)) }
{
    let mut lists = Seq::new(alloc);
    'items: for item in items {
        lists.push(steps_at(alloc, item)?)?;
    }
    Ok(lists)
}
