//! What stands in front of a message's event.
ghost use Rattle.std.specs.Prelude.{◌≡◌, IfOk, option_map};
ghost use Rattle.serde_json.specs.View.{view};
ghost use Rattle.wire_v2.specs.Message.{as_reference, head_of};
ghost use Rattle.wire_v2.specs.View.{head_view};

use serde_json::Value as Json;
use std::alloc::Global;
use text_core::{OutOfMemory, Text};

/// What a message has in front of its event (Phoenix Channels V2): the reference of the join that
/// it belongs to, its own reference, and the topic. A reference may be null.
#[derive(Debug, Drop)]
pub struct MessageHead {
    pub join_ref: Option<Text>,
    pub reference: Option<Text>,
    pub topic: Text,
}

// A text or null.
fn reference_of(alloc: Global, item: &Json) -> Result<Option<Option<Text>>, OutOfMemory>
    ensures { IfOk result (λ r. r ≡ as_reference (view item.now)) }
{
    match item {
        Json::Null => Ok(Some(None)),
        Json::String(text) => Ok(Some(Some(Text::copy_of(alloc, text.as_str())?))),
        _ => Ok(None),
    }
}

/// The head that the first three items of a message stand for, if they stand for one.
pub fn head_of(
    alloc: Global,
    join_ref: &Json,
    reference: &Json,
    topic: &Json,
) -> Result<Option<MessageHead>, OutOfMemory>
    ensures { IfOk result (λ h. option_map head_view h ≡ head_of (view join_ref.now) (view reference.now) (view topic.now)) }
{
    let Some(join_ref) = reference_of(alloc, join_ref)? else {
        return Ok(None);
    };
    let Some(reference) = reference_of(alloc, reference)? else {
        return Ok(None);
    };
    let Some(topic) = topic.as_str() else {
        return Ok(None);
    };
    let topic = Text::copy_of(alloc, topic)?;
    Ok(Some(MessageHead {
        join_ref,
        reference,
        topic,
    }))
}
