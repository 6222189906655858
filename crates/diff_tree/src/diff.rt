//! What is sent of a page.
ghost use Rattle.std.specs.Prelude.{◌≡◌};

use crate::{Part, Push, Pushes};
use text_core::Seq;

/// What is sent of a page: its root, the components that differ, and the events that are pushed.
#[derive(Debug, Drop)]
pub struct Diff {
    root: Part,
    components: Seq<ComponentPart>,
    events: Pushes,
}

/// What is sent of a component, with its number.
#[derive(Debug, Drop)]
pub struct ComponentPart {
    pub number: u64,
    pub part: Part,
}

impl Diff {
    ghost use Rattle.diff_tree.specs.Parts.{diff_data, page_data, root_of, components_of, events_of};

    /// What is sent of a page with this root, these components and these events.
    pub fn new(root: Part, components: Seq<ComponentPart>, events: Pushes) -> Diff
        ensures root { root_of result ≡ root }
        ensures components { components_of result ≡ components }
        ensures events { events_of result ≡ events }
        ensures data { diff_data result ≡ page_data root components events }
    {
        Diff {
            root,
            components,
            events,
        }
    }

    /// The root.
    pub fn root(&self) -> &Part
        ensures { result.now ≡ root_of self.now }
    {
        &self.root
    }

    /// The components.
    pub fn components(&self) -> &[ComponentPart]
        ensures { result.now ≡ components_of self.now }
    {
        self.components.as_slice()
    }

    /// The events, in order.
    pub fn events(&self) -> &[Push]
        ensures { result.now ≡ events_of self.now }
    {
        self.events.as_slice()
    }

    /// The root, the components and the events, given out.
    pub fn into_parts(self) -> (Part, Seq<ComponentPart>, Pushes)
        ensures root { result.0 ≡ root_of self }
        ensures components { result.1 ≡ components_of self }
        ensures events { result.2 ≡ events_of self }
    {
        let Diff {
            root,
            components,
            events,
        } = self;
        (root, components, events)
    }
}
