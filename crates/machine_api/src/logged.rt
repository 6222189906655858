//! A value with a journal.
ghost use Rattle.std.specs.Prelude.{◌≡◌, ℕ, List, [], ◌++◌, length};

/// A value whose journal only grows, entry by entry, each under the number of the pass that made it.
pub trait Logged {
    /// One step of the value.
    type Entry;

    /// What the value stands on, as a process on its app.
    type App: Send + Sync + Drop;

    // The entries so far, each behind the number of the pass that made it.
    ghost journal: { Self → List (ℕ × Self.Entry) };

    // What the value stands on, which no call changes.
    ghost basis: { Self → Self.App };

    // What is true of every journal of a value that stands on this.
    ghost lawful: { Self.App → List (ℕ × Self.Entry) → Type 0 };

    /// The number of entries. Each value's own journal is lawful.
    fn length(&self) -> u64
        ensures count { result ≡ length (journal self.now) }
        ensures lawful { lawful (basis self.now) (journal self.now) };

    // The empty journal is lawful.
    ghost begins: { (on : Self.App) → lawful on [] };

    // Each beginning of a lawful journal is lawful.
    ghost shortens: { (on : Self.App) (before after : List (ℕ × Self.Entry)) → lawful on (before ++ after) → lawful on before };
}
