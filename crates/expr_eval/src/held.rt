//! Values that are owned, or stand in scope.
ghost use Rattle.std.specs.Prelude.{◌≡◌, IfOk};
ghost use Rattle.value_core.specs.View.{view};
ghost use Rattle.expr_eval.specs.Held.{held_view};
ghost use Rattle.expr_eval.specs.Scope.{place_view};

use std::alloc::Global;
use text_core::OutOfMemory;
use value_core::{Value, copy};

/// What an expression gives: a value of its own, or one that stands in scope and is only copied by who has to own it.
#[derive(Debug, Drop)]
pub(crate) enum Held<'a> {
    Owned(Value),
    Borrowed(&'a Value),
}

impl<'a> Held<'a> {
    /// What a path has come to: nil where there is nothing.
    pub(crate) fn at(place: Option<&'a Value>) -> Held<'a>
        ensures { held_view result ≡ place_view place.entry }
    {
        match place {
            Some(value) => Held::Borrowed(value),
            None => Held::Owned(Value::Nil),
        }
    }

    /// The value, to be looked at.
    pub(crate) fn value(&self) -> &Value
        ensures { view result.now ≡ held_view self.now }
    {
        match self {
            Held::Owned(value) => value,
            Held::Borrowed(value) => *value,
        }
    }

    /// The value as one that is owned.
    pub(crate) fn into_value(self, alloc: Global) -> Result<Value, OutOfMemory>
        ensures { IfOk result (λ v. view v ≡ held_view self.entry) }
    {
        match self {
            Held::Owned(value) => Ok(value),
            Held::Borrowed(value) => copy(alloc, value),
        }
    }

    /// The same value once more: what stands in scope is not copied.
    pub(crate) fn again(&self, alloc: Global) -> Result<Held<'a>, OutOfMemory>
        ensures { IfOk result (λ h. held_view h ≡ held_view self.now) }
    {
        match self {
            Held::Owned(value) => Ok(Held::Owned(copy(alloc, value)?)),
            Held::Borrowed(value) => Ok(Held::Borrowed(*value)),
        }
    }
}
