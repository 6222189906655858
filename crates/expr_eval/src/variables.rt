//! The variables in scope.
ghost use Rattle.std.specs.Prelude.{◌≡◌, [], ◌∷◌, ◌++◌, IfOk, OnOk, OnErr, MatchOption, length, option_map};
ghost use Rattle.std.specs.Option.{option_copied};
ghost use Rattle.text_core.specs.Keyed.{entry, lookup as keyed_lookup};
ghost use Rattle.value_core.specs.View.{view};
ghost use Rattle.doc_model.specs.Environment.{lookup};
ghost use Rattle.expr_eval.specs.Variables.{variables_view};

use std::alloc::Global;
use text_core::{KeyValue, OutOfMemory, Seq, Text};
use value_core::Value;

/// Names with values, in the order in which they are looked up: of equal names the first holds.
pub type Bindings = Seq<KeyValue<Value>>;

/// The variables in scope: what each scope binds, the innermost last.
#[derive(Debug, Drop)]
pub struct Variables {
    scopes: Seq<Bindings>,
}

impl Variables {
    /// No scope. It takes no memory.
    pub fn new(alloc: Global) -> Variables
        ensures { result.scopes ≡ [] }
    {
        Variables {
            scopes: Seq::new(alloc),
        }
    }

    /// One scope with one variable.
    pub fn of(alloc: Global, name: Text, value: Value) -> Result<Variables, OutOfMemory>
        ensures { IfOk result (λ v. v.scopes ≡ (entry name value ∷ []) ∷ []) }
    {
        let mut bindings = Seq::new(alloc);
        bindings.push(KeyValue { key: name, value })?;
        let mut variables = Variables::new(alloc);
        variables.enter(bindings)?;
        Ok(variables)
    }

    /// The value of a variable, where it stands: the innermost scope that binds its name holds.
    pub fn get(&self, name: &str) -> Option<&Value>
        ensures { option_map view (option_copied result) ≡ lookup name.now (variables_view self.now.scopes) }
    {
        let scopes = self.scopes.as_slice();
        'scopes: for i in (0..scopes.len()).rev() {
            if let Some(value) = value_in(&scopes[i], name) {
                return Some(value);
            }
        }
        None
    }

    /// Enters a scope inside those there are; after an error they are as before.
    pub fn enter(&mut self, bindings: Bindings) -> Result<(), OutOfMemory>
        ensures ok { OnOk result (self.new.scopes ≡ self.old.scopes ++ bindings ∷ []) }
        ensures err { OnErr result (self.new.scopes ≡ self.old.scopes) }
    {
        self.scopes.push(bindings)
    }

    /// Leaves the innermost scope, and gives what it bound; nothing where there is no scope.
    pub fn leave(&mut self) -> Option<Bindings>
        ensures { MatchOption result ((self.old.scopes ≡ []) × (self.new.scopes ≡ [])) (λ bindings. self.old.scopes ≡ self.new.scopes ++ bindings ∷ []) }
    {
        self.scopes.pop()
    }

    /// What each scope binds, the innermost last.
    pub fn scopes(&self) -> &[Bindings]
        ensures { result.now ≡ self.now.scopes }
    {
        self.scopes.as_slice()
    }

    /// How many scopes there are.
    pub fn depth(&self) -> usize
        ensures { result ≡ length self.now.scopes }
    {
        self.scopes.len()
    }
}

/// The value of a name among bindings, where it stands: the first holds.
pub fn value_in<'a>(bindings: &'a Bindings, name: &str) -> Option<&'a Value>
    ensures { option_copied result ≡ keyed_lookup name.now bindings.now }
{
    for binding in bindings.as_slice() {
        if name == binding.key.as_str() {
            return Some(&binding.value);
        }
    }
    None
}
