//! Nodes as they are sent.
ghost use Rattle.std.specs.Prelude.{◌≡◌};

use crate::StreamPart;
use text_core::{ByKey, Names, Seq, Text};

/// A node as it is sent: its statics where it is sent whole, and what stands between them.
#[cycle(part)]
#[derive(Debug, Drop)]
pub struct Part {
    pub(crate) statics: Option<Names>,
    pub(crate) body: PartBody,
}

/// What stands between the statics of a node.
#[cycle(part)]
#[derive(Debug, Drop)]
pub enum PartBody {
    /// Values under the decimal numbers of their places.
    Places(ByKey<PlaceValue>),
    /// Rows; those of a stream with its operations.
    List {
        rows: Seq<Row>,
        stream: Option<StreamPart>,
    },
}

/// A row: a value for each of its places.
#[cycle(part)]
#[derive(Debug, Drop)]
pub struct Row {
    pub(crate) values: Seq<PlaceValue>,
}

/// What is sent for a place.
#[cycle(part)]
#[derive(Debug, Drop)]
pub enum PlaceValue {
    /// A text.
    Text(Text),
    /// The number of a component.
    Number(u64),
    /// A node.
    Node(Part),
}

impl Part {
    ghost use Rattle.std.specs.Option.{option_copied};
    ghost use Rattle.diff_tree.specs.declared.part.PartBody.TheVariants.{Places, List};
    ghost use Rattle.diff_tree.specs.Parts.{part_data, node_data, list_data, statics_of, body_of, places_of};

    /// A node of its statics, where it is whole, and of the values of its places.
    pub fn new(statics: Option<Names>, places: ByKey<PlaceValue>) -> Part
        ensures statics { statics_of result ≡ statics }
        ensures body { body_of result ≡ Places places }
        ensures data { part_data result ≡ node_data statics places }
    {
        Part {
            statics,
            body: PartBody::Places(places),
        }
    }

    /// A node of rows, with the statics around the places of each where it is whole, and with the operations of a
    /// stream where it is one.
    pub fn list(statics: Option<Names>, rows: Seq<Row>, stream: Option<StreamPart>) -> Part
        ensures statics { statics_of result ≡ statics }
        ensures body { body_of result ≡ List rows stream }
        ensures data { part_data result ≡ list_data statics rows stream }
    {
        Part {
            statics,
            body: PartBody::List { rows, stream },
        }
    }

    /// Its statics, where it is whole.
    pub fn statics(&self) -> Option<&Names>
        ensures { option_copied result ≡ statics_of self.now }
    {
        self.statics.as_ref()
    }

    /// What stands between its statics.
    pub fn body(&self) -> &PartBody
        ensures { result.now ≡ body_of self.now }
    {
        &self.body
    }

    /// The values of its places, by their numbers in decimal, where it has no rows.
    pub fn places(&self) -> Option<&ByKey<PlaceValue>>
        ensures { option_copied result ≡ places_of (body_of self.now) }
    {
        match &self.body {
            PartBody::Places(places) => Some(places),
            PartBody::List { .. } => None,
        }
    }

    /// Its statics, where it is whole, and what stands between them, given out.
    pub fn into_parts(self) -> (Option<Names>, PartBody)
        ensures statics { result.0 ≡ statics_of self }
        ensures body { result.1 ≡ body_of self }
    {
        let Part { statics, body } = self;
        (statics, body)
    }
}

impl Row {
    ghost use Rattle.std.specs.Prelude.{map};
    ghost use Rattle.serde_json.specs.View.{items_of};
    ghost use Rattle.diff_tree.specs.Parts.{row_data, place_data, values_of};

    /// A row of the values of its places.
    pub fn new(values: Seq<PlaceValue>) -> Row
        ensures values { values_of result ≡ values }
        ensures data { row_data result ≡ items_of (map place_data values) }
    {
        Row { values }
    }

    /// The values of its places.
    pub fn values(&self) -> &[PlaceValue]
        ensures { result.now ≡ values_of self.now }
    {
        self.values.as_slice()
    }

    /// The values of its places, given out.
    pub fn into_values(self) -> Seq<PlaceValue>
        ensures { result ≡ values_of self }
    {
        let Row { values } = self;
        values
    }
}
