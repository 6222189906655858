//! Whether a message is of the page that is up.
ghost use Rattle.std.specs.Prelude.{◌≡◌, ◌&&◌, Some};
ghost use Rattle.std.specs.Str.{bytes_eq};
ghost use Rattle.doc_model.specs.Process.{same_reference};

use live_page::LivePage;
use text_core::Text;
use wire_v2::MessageHead;

// The same text, or null both times.
fn same_reference(left: &Option<Text>, right: &Option<Text>) -> bool
    ensures { result ≡ same_reference left.now right.now }
{
    match left {
        Some(left) => is_text(left, right),
        None => right.is_none(),
    }
}

fn is_text(left: &Text, right: &Option<Text>) -> bool
    ensures { result ≡ same_reference (Some left.now) right.now }
{
    match right {
        Some(right) => left.as_str() == right.as_str(),
        None => false,
    }
}

/// Whether a message is of a page's join: it has the join's reference, and its topic.
pub(crate) fn is_of(page: &LivePage, head: &MessageHead) -> bool
    ensures { result ≡ (same_reference head.now.join_ref page.now.join_ref && bytes_eq head.now.topic page.now.topic) }
{
    if !same_reference(&head.join_ref, &page.join_ref) {
        return false;
    }
    head.topic.as_str() == page.topic.as_str()
}
