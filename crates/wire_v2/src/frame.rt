//! The frames that a process sends.
use diff_tree::Diff;
use text_core::Text;

/// What a process sends (Phoenix Channels V2).
#[derive(Debug, Drop)]
pub struct Frame {
    pub join_ref: Option<Text>,
    pub reference: Option<Text>,
    pub topic: Text,
    pub body: FrameBody,
}

/// What a frame carries.
#[derive(Debug, Drop)]
pub enum FrameBody {
    /// A reply with nothing.
    Empty,
    /// A reply with the whole tree of a page.
    Rendered(Diff),
    /// A reply with a diff.
    Changed(Diff),
    /// An error reply with its reason.
    Refusal(Text),
    /// The reply to `cids_destroyed`.
    NoCids,
    /// A diff that answers no message.
    Pushed(Diff),
    /// `phx_close`.
    Closed,
    /// `phx_error`, with its reason where it has one.
    Faulted(Option<Text>),
}
