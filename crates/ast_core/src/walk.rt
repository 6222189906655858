//! A walk over a template, which notes the names that it meets.
ghost use Rattle.std.specs.Prelude.{◌≡◌, ◌≤◌, [], ◌∷◌, OnOk, MatchOption, length, insert};
ghost use Rattle.ast_core.specs.Free.{one_of};
ghost use Rattle.ast_core.specs.Syntax.{at, var};
ghost use Rattle.ast_core.specs.Reads.{with_name};
ghost use Rattle.ast_core.specs.NamesIn.{bound_by, all_bound, bound_by_key};
ghost use Rattle.ast_core.specs.Walk.{start, meet, inside, outside};

use crate::{Pattern, PatternPairs, Patterns};
use std::alloc::Global;
use std::cmp::Ordering;
use text_core::{Names, OutOfMemory, Text};

/// The assigns and the variables that are read from outside, in byte order, none twice.
#[derive(Debug, Drop)]
pub struct Reads {
    pub assigns: Names,
    pub variables: Names,
}

// The variables in whose scope a walk is, and what it met that is not bound there.
#[derive(Debug, Drop)]
pub struct Walk {
    pub bound: Names,
    pub assigns: Names,
    pub variables: Names,
}

fn is_one_of(name: &str, names: &[Text]) -> bool
    ensures { result ≡ one_of name.now names.now }
{
    for other in names {
        if name == other.as_str() {
            return true;
        }
    }
    false
}

// Where a name goes, or none where it stands already.
fn place_of(name: &str, names: &[Text]) -> Option<usize>
    ensures { MatchOption result
        (with_name name.now names.now ≡ names.now)
        (λ i. (i ≤ length names.now) × (with_name name.now names.now ≡ insert names.now i name.now)) }
{
    'places: for i in 0..names.len() {
        match name.cmp(names[i].as_str()) {
            Ordering::Less => return Some(i),
            Ordering::Equal => return None,
            Ordering::Greater => {}
        }
    }
    Some(names.len())
}

fn add(alloc: Global, name: &Text, names: &mut Names) -> Result<(), OutOfMemory>
    ensures { OnOk result (names.new ≡ with_name name.now names.old) }
{
    match place_of(name.as_str(), names.as_slice()) {
        Some(place) => names.insert(place, name.copy(alloc)?),
        None => Ok(()),
    }
}

impl Walk {
    pub fn new(alloc: Global) -> Walk
        ensures { result ≡ start }
    {
        Walk {
            bound: Names::new(alloc),
            assigns: Names::new(alloc),
            variables: Names::new(alloc),
        }
    }

    // What it met.
    pub fn ended(self) -> Reads
        ensures assigns { result.assigns ≡ self.assigns }
        ensures variables { result.variables ≡ self.variables }
    {
        let Walk {
            bound: _bound,
            assigns,
            variables,
        } = self;
        Reads { assigns, variables }
    }

    pub fn read_assign(&mut self, alloc: Global, name: &Text) -> Result<(), OutOfMemory>
        ensures { OnOk result (self.new ≡ meet (at name.now) self.old) }
    {
        add(alloc, name, &mut self.assigns)
    }

    pub fn read_variable(&mut self, alloc: Global, name: &Text) -> Result<(), OutOfMemory>
        ensures { OnOk result (self.new ≡ meet (var name.now) self.old) }
    {
        if is_one_of(name.as_str(), self.bound.as_slice()) {
            return Ok(());
        }
        add(alloc, name, &mut self.variables)
    }

    pub fn bind_name(&mut self, alloc: Global, name: &Text) -> Result<(), OutOfMemory>
        ensures { OnOk result (self.new ≡ inside (name.now ∷ []) self.old) }
    {
        self.bound.push(name.copy(alloc)?)
    }

    #[cycle(bind)]
    pub fn bind(&mut self, alloc: Global, pattern: &Pattern) -> Result<(), OutOfMemory>
        ensures { OnOk result (self.new ≡ inside (bound_by pattern.now) self.old) }
    {
        match pattern {
            Pattern::Name(name) => self.bind_name(alloc, name),
            Pattern::Tuple(items) | Pattern::List(items) => self.bind_all(alloc, items),
            Pattern::Map(pairs) => self.bind_pairs(alloc, pairs),
            Pattern::Any
            | Pattern::Number(_)
            | Pattern::Text(_)
            | Pattern::Atom(_)
            | Pattern::Nil
            | Pattern::Bool(_) => Ok(()),
        }
    }

    #[cycle(bind)]
    fn bind_all(&mut self, alloc: Global, patterns: &Patterns) -> Result<(), OutOfMemory>
        ensures { OnOk result (self.new ≡ inside (all_bound bound_by patterns.now) self.old) }
    {
        'patterns: for pattern in patterns.as_slice() {
            self.bind(alloc, pattern)?;
        }
        Ok(())
    }

    #[cycle(bind)]
    fn bind_pairs(&mut self, alloc: Global, pairs: &PatternPairs) -> Result<(), OutOfMemory>
        ensures { OnOk result (self.new ≡ inside (all_bound bound_by_key pairs.now) self.old) }
    {
        'pairs: for pair in pairs.as_slice() {
            self.bind(alloc, &pair.pattern)?;
        }
        Ok(())
    }

    // Leaves the scope of the variables behind the first `count`.
    pub fn leave(&mut self, count: usize)
        requires { count ≤ length self.old.bound }
        ensures { self.new ≡ outside count self.old }
    {
        'inner: while self.bound.len() > count {
            let _inner = self.bound.pop();
        }
    }
}
