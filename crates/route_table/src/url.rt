//! The path and the query of a URL.
ghost use Rattle.std.specs.Prelude.{◌≡◌, None, Some, MatchOption};
ghost use Rattle.route_table.specs.Url as spec;

/// The path, and the query's text.
pub fn split_url(url: &str) -> (&str, &str)
    ensures path { result.0.now ≡ spec.path_of url.now }
    ensures query { result.1.now ≡ spec.query_of url.now }
{
    let (resource, query) = split_query(without_fragment(url));
    (rooted(without_authority(resource)), query)
}

fn without_fragment(url: &str) -> &str
    ensures { result.now ≡ spec.without_fragment url.now }
{
    match url.split_once('#') {
        Some((before, _)) => before,
        None => url,
    }
}

fn split_query(text: &str) -> (&str, &str)
    ensures before { result.0.now ≡ spec.before_query text.now }
    ensures behind { result.1.now ≡ spec.behind_query text.now }
{
    match text.split_once('?') {
        Some((before, behind)) => (before, behind),
        None => (text, ""),
    }
}

fn without_authority(text: &str) -> &str
    ensures { result.now ≡ spec.without_authority text.now }
{
    if text.starts_with('/') {
        return text;
    }
    match text.split_once("://") {
        Some((_, rest)) => from_slash(rest),
        None => text,
    }
}

fn from_slash(text: &str) -> &str
    ensures { result.now ≡ spec.from_slash text.now }
{
    match text.find('/') {
        Some(at) => text.split_at(at).1,
        None => "",
    }
}

fn rooted(path: &str) -> &str
    ensures { result.now ≡ spec.rooted path.now }
{
    if path.is_empty() { "/" } else { path }
}
