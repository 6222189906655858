//! What a value is.

use text_core::{ByKey, Seq, Text};

/// A value of the template language.
#[cycle(value)]
#[derive(Debug, Drop)]
pub enum Value {
    /// No value.
    Nil,
    /// True or false.
    Bool(bool),
    /// A whole number of 64 bits.
    Int(i64),
    /// A text.
    Text(Text),
    /// An atom, without its colon.
    Atom(Text),
    /// A list.
    List(Seq<Value>),
    /// A tuple.
    Tuple(Seq<Value>),
    /// A map from text.
    Map(ByKey<Value>),
    /// A slot body with what it reads.
    Slot(SlotValue),
}

/// A slot body by its number, with exactly the assigns and the variables that it reads.
#[cycle(value)]
#[derive(Debug, Drop)]
pub struct SlotValue {
    pub body: u64,
    pub names: ByKey<Value>,
    pub variables: ByKey<Value>,
}

/// A list of values.
pub type Values = Seq<Value>;

/// Values by their names.
pub type Assigns = ByKey<Value>;
