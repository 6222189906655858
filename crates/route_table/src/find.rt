//! The view of a URL.
ghost use Rattle.std.specs.Prelude.{◌≡◌, IfOk, OnOk, map, option_map, fold, [], string_bytes};
ghost use Rattle.std.specs.List.{zip};
ghost use Rattle.text_core.specs.Keyed.{on_value};
ghost use Rattle.value_core.specs.Value.{text};
ghost use Rattle.value_core.specs.View.{view, assigns_view};
ghost use Rattle.route_table.specs.Found.{find_in, seen, parameters_of, with_segment, text_of, IsText};

use crate::route::segments_of;
use crate::table::Routes;
use crate::url::split_url;
use percent_encoding::{DecodeError, percent_decode};
use std::alloc::{AllocError, Global};
use text_core::{ByKey, OutOfMemory, Text};
use value_core::{Assigns, Value};

/// What a URL finds.
#[derive(Debug, Drop)]
pub struct Found {
    /// The number of the view.
    pub view: u32,
    /// The parameters of its path, decoded.
    pub parameters: Assigns,
    /// The text of the URL's query, empty where it has none.
    pub query: Text,
}

impl Routes {
    /// The view of a URL, by the row that `matchit` finds for its path; none exactly where it finds none.
    pub fn find(&self, alloc: Global, url: &str) -> Result<Option<Found>, OutOfMemory>
        ensures { IfOk result (λ found. option_map seen found ≡ find_in self.now url.now) }
    {
        let (path, query) = split_url(url);
        match self.router.at(path) {
            Ok(found) => {
                let parameters = parameters_of(alloc, found.value.path.as_str(), path)?;
                let query = Text::copy_of(alloc, query)?;
                Ok(Some(Found {
                    view: found.value.view,
                    parameters,
                    query,
                }))
            }
            Err(_) => Ok(None),
        }
    }
}

// A path's parameters at the segments of a URL's path.
fn parameters_of(alloc: Global, path: &str, target: &str) -> Result<Assigns, OutOfMemory>
    ensures { IfOk result (λ es. assigns_view es ≡ parameters_of path.now target.now) }
{
    let segments = segments_of(alloc, path)?;
    let parts = segments_of(alloc, target)?;
    parameters_at(alloc, segments.as_slice(), parts.as_slice())
}

fn parameters_at(alloc: Global, segments: &[&str], parts: &[&str]) -> Result<Assigns, OutOfMemory>
    ensures { IfOk result (λ es. map (on_value view) es ≡ fold with_segment [] (zip (map (λ s. s.now) segments.now) (map (λ s. s.now) parts.now))) }
{
    let mut parameters = ByKey::new(alloc);
    let mut parts = parts;
    let mut left = segments;
    'segments: while let [segment, others @ ..] = left {
        let [part, more @ ..] = parts else {
            return Ok(parameters);
        };
        set_segment(alloc, &mut parameters, segment, part)?;
        left = others;
        parts = more;
    }
    Ok(parameters)
}

fn set_segment(
    alloc: Global,
    parameters: &mut Assigns,
    segment: &str,
    part: &str,
) -> Result<(), OutOfMemory>
    ensures { OnOk result (map (on_value view) parameters.new ≡ with_segment (map (on_value view) parameters.old) (segment.now, part.now)) }
{
    let Some(name) = segment.strip_prefix(':') else {
        return Ok(());
    };
    let value = value_of(alloc, part)?;
    let key = Text::copy_of(alloc, name)?;
    parameters.insert(key, value)
}

fn value_of(alloc: Global, part: &str) -> Result<Value, OutOfMemory>
    ensures { IfOk result (λ v. view v ≡ text (text_of part.now)) }
{
    Ok(Value::Text(Text::from_string(text_of(alloc, part)?)))
}

// The text that a parameter's segment stands for.
fn text_of(alloc: Global, part: &str) -> Result<String, AllocError>
    ensures { IfOk result (λ s. string_bytes s ≡ text_of part.now) }
{
    decoded(alloc, part)
}

fn decoded(alloc: Global, part: &str) -> Result<String, AllocError>
    ensures { IfOk result (λ s. IsText part.now (string_bytes s)) }
{
    match percent_decode(part.as_bytes()).decode_utf8(alloc) {
        Ok(text) => text.into_owned(alloc),
        Err(DecodeError::OutOfMemory) => Err(AllocError),
        Err(_) => String::from_str(alloc, part),
    }
}
