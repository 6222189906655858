//! What holds of the definitions.
ghost use Rattle.std.specs.Prelude.{◌≡◌, ◌↔◌, IsTrue};
ghost use Rattle.value_core.specs.Value.{Value, same as same_value};

/// Two values are the same exactly where they are equal.
pub fn same_is_equality()
    ensures { (a b : Value) → IsTrue (same_value a b) ↔ (a ≡ b) }
{}
