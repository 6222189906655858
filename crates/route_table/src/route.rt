//! A path in the syntax of `matchit`.
ghost use Rattle.std.specs.Prelude.{◌≡◌, ◌∷◌, ◌==◌, map, IfOk, None, option_map};
ghost use Rattle.std.specs.List.{slice_split, list_all};
ghost use Rattle.route_table.specs.Route as spec;

use std::alloc::{AllocError, Global};
use text_core::{OutOfMemory, Text};

/// A path as `matchit` writes it, none where it is bad.
pub fn route_of(alloc: Global, path: &str) -> Result<Option<Text>, OutOfMemory>
    ensures { IfOk result (λ route. route ≡ spec.route_of path.now) }
{
    if path == "/" {
        return Ok(Some(Text::copy_of(alloc, "/")?));
    }
    let segments = segments_of(alloc, path)?;
    route_of_segments(alloc, segments.as_slice())
}

/// What stands between the slashes of a path.
pub fn segments_of(alloc: Global, path: &str) -> Result<Vec<&str>, AllocError>
    ensures { IfOk result (λ segments. map (λ s. s.now) segments.items ≡ slice_split (λ b. b == 47) path.now) }
{
    path.split('/').collect(alloc)
}

fn route_of_segments(alloc: Global, segments: &[&str]) -> Result<Option<Text>, OutOfMemory>
    ensures { IfOk result (λ route. route ≡ spec.route_of_segments (map (λ s. s.now) segments.now)) }
{
    let [first, others @ ..] = segments else {
        return Ok(None);
    };
    if !first.is_empty() || others.is_empty() {
        return Ok(None);
    }
    joined(alloc, others)
}

// The segments as `matchit` writes them, each behind a slash; none where one is bad.
fn joined(alloc: Global, segments: &[&str]) -> Result<Option<Text>, OutOfMemory>
    ensures { IfOk result (λ route. route ≡ spec.joined (map (λ s. s.now) segments.now)) }
{
    let mut route = Text::new(alloc);
    let mut left = segments;
    'segments: while let [segment, others @ ..] = left {
        match behind_slash(alloc, segment)? {
            Some(text) => route.push_str(text.as_str())?,
            None => return Ok(None),
        }
        left = others;
    }
    Ok(Some(route))
}

fn behind_slash(alloc: Global, segment: &str) -> Result<Option<Text>, OutOfMemory>
    ensures { IfOk result (λ text. text ≡ spec.behind_slash segment.now) }
{
    match segment.strip_prefix(':') {
        Some(name) => parameter(alloc, name),
        None => plain(alloc, segment),
    }
}

fn parameter(alloc: Global, name: &str) -> Result<Option<Text>, OutOfMemory>
    ensures { IfOk result (λ text. text ≡ spec.parameter name.now) }
{
    if !is_name(name.as_bytes()) {
        return Ok(None);
    }
    let mut text = Text::copy_of(alloc, "/{")?;
    text.push_str(name)?;
    text.push_str("}")?;
    Ok(Some(text))
}

fn plain(alloc: Global, segment: &str) -> Result<Option<Text>, OutOfMemory>
    ensures { IfOk result (λ text. text ≡ spec.plain segment.now) }
{
    if !is_plain(segment.as_bytes()) {
        return Ok(None);
    }
    let mut text = Text::copy_of(alloc, "/")?;
    text.push_str(segment)?;
    Ok(Some(text))
}

fn is_plain(segment: &[u8]) -> bool
    ensures { result ≡ spec.is_plain segment.now }
{
    !segment.is_empty() && all_plain(segment)
}

fn all_plain(segment: &[u8]) -> bool
    ensures { result ≡ list_all spec.is_plain_byte segment.now }
{
    segment.iter().all(|b| is_plain_byte(*b))
}

fn is_plain_byte(b: u8) -> bool
    ensures { result ≡ spec.is_plain_byte b }
{
    b.is_ascii_alphanumeric() || b == b'-' || b == b'_' || b == b'.' || b == b'~'
}

fn is_name(name: &[u8]) -> bool
    ensures { result ≡ spec.is_name name.now }
{
    match name {
        [] => false,
        [first, others @ ..] => begins_name(*first) && all_in_name(others),
    }
}

fn all_in_name(name: &[u8]) -> bool
    ensures { result ≡ list_all spec.is_in_name name.now }
{
    name.iter().all(|b| is_in_name(*b))
}

fn begins_name(b: u8) -> bool
    ensures { result ≡ spec.begins_name b }
{
    b.is_ascii_lowercase() || b == b'_'
}

fn is_in_name(b: u8) -> bool
    ensures { result ≡ spec.is_in_name b }
{
    b.is_ascii_alphanumeric() || b == b'_'
}
