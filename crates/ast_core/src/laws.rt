//! What holds of the definitions.
ghost use Rattle.std.specs.Prelude.{Contains, List, ℕ, ◌↔◌, IsTrue};
ghost use Rattle.text_core.specs.Keyed.{ascend};
ghost use Rattle.ast_core.specs.Syntax.{Name, at, var};
ghost use Rattle.ast_core.specs.Reads.{assigns_in, variables_in};

/// The assigns among names are exactly those that are mentioned, and so are the variables.
pub fn reads_exactly()
    ensures assigns { (k : List ℕ) (ns : List Name) → Contains (assigns_in ns) k ↔ Contains ns (at k) }
    ensures variables { (k : List ℕ) (ns : List Name) → Contains (variables_in ns) k ↔ Contains ns (var k) }
{}

/// They stand in byte order, none twice.
pub fn reads_in_order()
    ensures assigns { (ns : List Name) → IsTrue (ascend (assigns_in ns)) }
    ensures variables { (ns : List Name) → IsTrue (ascend (variables_in ns)) }
{}
