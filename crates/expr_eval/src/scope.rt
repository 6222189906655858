//! What is in scope of an expression.
ghost use Rattle.std.specs.Prelude.{◌≡◌};
ghost use Rattle.doc_model.specs.Environment.{lookup};
ghost use Rattle.expr_eval.specs.Scope.{env_of, seen};

use crate::Variables;
use value_core::{Assigns, Value};

/// Given assigns, the assigns that they stand over, and the variables.
#[derive(Clone, Copy)]
pub(crate) struct Scope<'a> {
    pub(crate) given: &'a Assigns,
    pub(crate) assigns: &'a Assigns,
    pub(crate) variables: &'a Variables,
}

impl<'a> Scope<'a> {
    /// An assign, where it stands.
    pub(crate) fn assign(self, key: &str) -> Option<&'a Value>
        ensures { seen result ≡ lookup key.now (env_of self.entry).assigns }
    {
        match self.given.get(key) {
            Some(value) => Some(value),
            None => self.assigns.get(key),
        }
    }

    /// A variable, where it stands.
    pub(crate) fn variable(self, key: &str) -> Option<&'a Value>
        ensures { seen result ≡ lookup key.now (env_of self.entry).variables }
    {
        self.variables.get(key)
    }
}
