//! Patterns.

use text_core::{Seq, Text};

/// What a value is matched against.
#[cycle(pattern)]
#[derive(Debug, Drop)]
pub enum Pattern {
    /// `_`
    Any,
    /// A name, which the value gets.
    Name(Text),
    /// A whole number.
    Number(i64),
    /// A text.
    Text(Text),
    /// An atom, without its colon.
    Atom(Text),
    /// `nil`
    Nil,
    /// `true` and `false`
    Bool(bool),
    /// A tuple of the same length.
    Tuple(Seq<Pattern>),
    /// A list of the same length.
    List(Seq<Pattern>),
    /// A map that has these keys.
    Map(Seq<PatternPair>),
}

/// A key of a map, and the pattern of its value.
#[cycle(pattern)]
#[derive(Debug, Drop)]
pub struct PatternPair {
    pub key: Text,
    pub pattern: Pattern,
}

/// A list of patterns.
pub type Patterns = Seq<Pattern>;

/// The keys of a map pattern, as they are written.
pub type PatternPairs = Seq<PatternPair>;
